ghost use Rattle.std.specs.Prelude.{◌≡◌, ◌<◌};
ghost use Rattle.rv_isa.specs.Encoding.{Fits, encoding, word};
ghost use Rattle.rv_isa.specs.Tables.{relation_number, load_number, store_number, immediate_number, shift_number, register_number};
ghost use Rattle.rv_isa.specs.declared.instr.Instr.TheVariants.{Jal, Branch, Store, Immediate, Shift, Register};

use crate::instr::{ImmediateOp, Instr, LoadKind, RegisterOp, Relation, ShiftOp, StoreKind};

// The numbers of operations: funct3, or funct3 and 8 times funct7.

fn relation_code(relation: Relation) -> u32
    ensures is { result ≡ relation_number relation }
    ensures below { result < 8 }
{
    match relation {
        Relation::Equal => 0,
        Relation::NotEqual => 1,
        Relation::Less => 4,
        Relation::GreaterOrEqual => 5,
        Relation::LessUnsigned => 6,
        Relation::GreaterOrEqualUnsigned => 7,
    }
}

fn load_code(kind: LoadKind) -> u32
    ensures is { result ≡ load_number kind }
    ensures below { result < 8 }
{
    match kind {
        LoadKind::Byte => 0,
        LoadKind::Half => 1,
        LoadKind::Word => 2,
        LoadKind::ByteUnsigned => 4,
        LoadKind::HalfUnsigned => 5,
    }
}

fn store_code(kind: StoreKind) -> u32
    ensures is { result ≡ store_number kind }
    ensures below { result < 8 }
{
    match kind {
        StoreKind::Byte => 0,
        StoreKind::Half => 1,
        StoreKind::Word => 2,
    }
}

fn immediate_code(op: ImmediateOp) -> u32
    ensures is { result ≡ immediate_number op }
    ensures below { result < 8 }
{
    match op {
        ImmediateOp::Addi => 0,
        ImmediateOp::Slti => 2,
        ImmediateOp::Sltiu => 3,
        ImmediateOp::Xori => 4,
        ImmediateOp::Ori => 6,
        ImmediateOp::Andi => 7,
    }
}

fn shift_code(op: ShiftOp) -> u32
    ensures is { result ≡ shift_number op }
    ensures below { result < 1024 }
{
    match op {
        ShiftOp::Slli => 1,
        ShiftOp::Srli => 5,
        ShiftOp::Srai => 261,
    }
}

fn register_code(op: RegisterOp) -> u32
    ensures is { result ≡ register_number op }
    ensures below { result < 1024 }
{
    match op {
        RegisterOp::Add => 0,
        RegisterOp::Sub => 256,
        RegisterOp::Sll => 1,
        RegisterOp::Slt => 2,
        RegisterOp::Sltu => 3,
        RegisterOp::Xor => 4,
        RegisterOp::Srl => 5,
        RegisterOp::Sra => 261,
        RegisterOp::Or => 6,
        RegisterOp::And => 7,
        RegisterOp::Mul => 8,
        RegisterOp::Mulh => 9,
        RegisterOp::Mulhsu => 10,
        RegisterOp::Mulhu => 11,
        RegisterOp::Div => 12,
        RegisterOp::Divu => 13,
        RegisterOp::Rem => 14,
        RegisterOp::Remu => 15,
    }
}

// The word of its fields, where high are the bits from 20 on.
fn of_fields(opcode: u32, rd: u32, funct3: u32, rs1: u8, high: u32) -> u32
    requires opcode { opcode < 128 }
    requires rd { rd < 32 }
    requires funct3 { funct3 < 8 }
    requires rs1 { rs1 < 32 }
    requires high { high < 4096 }
    ensures { result ≡ word opcode rd funct3 rs1 high }
{
    opcode + 128 * rd + 4096 * funct3 + 32768 * (rs1 as u32) + 1048576 * high
}

// The words of single formats.

fn jump_word(rd: u8, offset: u32) -> u32
    requires { rd < 32 }
    ensures { result ≡ encoding (Jal rd offset) }
{
    let low = 0x6f + 128 * (rd as u32) + 4096 * (offset / 4096 % 256);
    let high = 1048576 * (offset / 2048 % 2) + 2097152 * (offset / 2 % 1024);
    low + high + 2147483648 * (offset / 1048576 % 2)
}

fn branch_word(relation: Relation, rs1: u8, rs2: u8, offset: u32) -> u32
    requires rs1 { rs1 < 32 }
    requires rs2 { rs2 < 32 }
    ensures { result ≡ encoding (Branch relation rs1 rs2 offset) }
{
    let low = offset / 2048 % 2 + 2 * (offset / 2 % 16);
    let high = (rs2 as u32) + 32 * (offset / 32 % 64) + 2048 * (offset / 4096 % 2);
    of_fields(0x63, low, relation_code(relation), rs1, high)
}

fn store_word(kind: StoreKind, rs1: u8, rs2: u8, offset: u32) -> u32
    requires rs1 { rs1 < 32 }
    requires rs2 { rs2 < 32 }
    ensures { result ≡ encoding (Store kind rs1 rs2 offset) }
{
    let high = (rs2 as u32) + 32 * (offset / 32 % 128);
    of_fields(0x23, offset % 32, store_code(kind), rs1, high)
}

fn immediate_word(op: ImmediateOp, rd: u8, rs1: u8, value: u32) -> u32
    requires rd { rd < 32 }
    requires rs1 { rs1 < 32 }
    ensures { result ≡ encoding (Immediate op rd rs1 value) }
{
    of_fields(0x13, rd as u32, immediate_code(op), rs1, value % 4096)
}

fn shift_word(op: ShiftOp, rd: u8, rs1: u8, amount: u8) -> u32
    requires rd { rd < 32 }
    requires rs1 { rs1 < 32 }
    requires amount { amount < 32 }
    ensures { result ≡ encoding (Shift op rd rs1 amount) }
{
    let code = shift_code(op);
    let high = (amount as u32) + 32 * (code / 8);
    of_fields(0x13, rd as u32, code % 8, rs1, high)
}

fn register_word(op: RegisterOp, rd: u8, rs1: u8, rs2: u8) -> u32
    requires rd { rd < 32 }
    requires rs1 { rs1 < 32 }
    requires rs2 { rs2 < 32 }
    ensures { result ≡ encoding (Register op rd rs1 rs2) }
{
    let code = register_code(op);
    let high = (rs2 as u32) + 32 * (code / 8);
    of_fields(0x33, rd as u32, code % 8, rs1, high)
}

/// The word of an instruction that fits, as [`Instr::fits`] tells.
pub fn encode(op: Instr) -> u32
    requires { Fits op }
    ensures { result ≡ encoding op }
{
    match op {
        Instr::Lui { rd, upper } => 0x37 + 128 * (rd as u32) + upper,
        Instr::Auipc { rd, upper } => 0x17 + 128 * (rd as u32) + upper,
        Instr::Jal { rd, offset } => jump_word(rd, offset),
        Instr::Jalr { rd, rs1, offset } => of_fields(0x67, rd as u32, 0, rs1, offset % 4096),
        Instr::Branch {
            relation,
            rs1,
            rs2,
            offset,
        } => branch_word(relation, rs1, rs2, offset),
        Instr::Load {
            kind,
            rd,
            rs1,
            offset,
        } => of_fields(0x03, rd as u32, load_code(kind), rs1, offset % 4096),
        Instr::Store {
            kind,
            rs1,
            rs2,
            offset,
        } => store_word(kind, rs1, rs2, offset),
        Instr::Immediate { op, rd, rs1, value } => immediate_word(op, rd, rs1, value),
        Instr::Shift {
            op,
            rd,
            rs1,
            amount,
        } => shift_word(op, rd, rs1, amount),
        Instr::Register { op, rd, rs1, rs2 } => register_word(op, rd, rs1, rs2),
        Instr::Fence { rd, rs1, value } => of_fields(0x0f, rd as u32, 0, rs1, value % 4096),
        Instr::Ecall => 0x73,
        Instr::Ebreak => 0x0010_0073,
    }
}
