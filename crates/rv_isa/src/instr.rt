use crate::signed::is_signed;

/// How a branch compares.
#[derive(Clone, Copy, PartialEq, Eq, Debug)]
pub enum Relation {
    Equal,
    NotEqual,
    Less,
    GreaterOrEqual,
    LessUnsigned,
    GreaterOrEqualUnsigned,
}

/// What a load reads.
#[derive(Clone, Copy, PartialEq, Eq, Debug)]
pub enum LoadKind {
    Byte,
    Half,
    Word,
    ByteUnsigned,
    HalfUnsigned,
}

/// What a store writes.
#[derive(Clone, Copy, PartialEq, Eq, Debug)]
pub enum StoreKind {
    Byte,
    Half,
    Word,
}

/// An operation on a register and an immediate.
#[derive(Clone, Copy, PartialEq, Eq, Debug)]
pub enum ImmediateOp {
    Addi,
    Slti,
    Sltiu,
    Xori,
    Ori,
    Andi,
}

/// A shift by an immediate.
#[derive(Clone, Copy, PartialEq, Eq, Debug)]
pub enum ShiftOp {
    Slli,
    Srli,
    Srai,
}

/// An operation on two registers.
#[derive(Clone, Copy, PartialEq, Eq, Debug)]
pub enum RegisterOp {
    Add,
    Sub,
    Sll,
    Slt,
    Sltu,
    Xor,
    Srl,
    Sra,
    Or,
    And,
    Mul,
    Mulh,
    Mulhsu,
    Mulhu,
    Div,
    Divu,
    Rem,
    Remu,
}

/// An instruction. Registers are 0 to 31. A signed immediate is the word of 32 bits that stands for
/// it, and an offset is a signed immediate in bytes. `upper` has its low 12 bits zero.
#[derive(Clone, Copy)]
pub enum Instr {
    Lui {
        rd: u8,
        upper: u32,
    },
    Auipc {
        rd: u8,
        upper: u32,
    },
    Jal {
        rd: u8,
        offset: u32,
    },
    Jalr {
        rd: u8,
        rs1: u8,
        offset: u32,
    },
    Branch {
        relation: Relation,
        rs1: u8,
        rs2: u8,
        offset: u32,
    },
    Load {
        kind: LoadKind,
        rd: u8,
        rs1: u8,
        offset: u32,
    },
    Store {
        kind: StoreKind,
        rs1: u8,
        rs2: u8,
        offset: u32,
    },
    Immediate {
        op: ImmediateOp,
        rd: u8,
        rs1: u8,
        value: u32,
    },
    Shift {
        op: ShiftOp,
        rd: u8,
        rs1: u8,
        amount: u8,
    },
    Register {
        op: RegisterOp,
        rd: u8,
        rs1: u8,
        rs2: u8,
    },
    Fence {
        rd: u8,
        rs1: u8,
        value: u32,
    },
    Ecall,
    Ebreak,
}

impl Instr {
    ghost use Rattle.std.specs.Prelude.{◌↔◌, IsTrue};
    ghost use Rattle.rv_isa.specs.Encoding.{Fits};

    /// Whether the fields have their ranges: registers and shift amounts below 32, and immediates
    /// that their format can hold.
    pub fn fits(&self) -> bool
        ensures { IsTrue result ↔ Fits self.now }
    {
        match *self {
            Instr::Lui { rd, upper } | Instr::Auipc { rd, upper } => rd < 32 && upper % 4096 == 0,
            Instr::Jal { rd, offset } => rd < 32 && is_signed(1048576, offset) && offset % 2 == 0,
            Instr::Jalr { rd, rs1, offset } => rd < 32 && rs1 < 32 && is_signed(2048, offset),
            Instr::Branch {
                rs1,
                rs2,
                offset,
                ..
            } => rs1 < 32 && rs2 < 32 && is_signed(4096, offset) && offset % 2 == 0,
            Instr::Load {
                rd,
                rs1,
                offset,
                ..
            } => rd < 32 && rs1 < 32 && is_signed(2048, offset),
            Instr::Store {
                rs1,
                rs2,
                offset,
                ..
            } => rs1 < 32 && rs2 < 32 && is_signed(2048, offset),
            Instr::Immediate { rd, rs1, value, .. } => rd < 32
                && rs1 < 32
                && is_signed(2048, value),
            Instr::Shift {
                rd,
                rs1,
                amount,
                ..
            } => rd < 32 && rs1 < 32 && amount < 32,
            Instr::Register { rd, rs1, rs2, .. } => rd < 32 && rs1 < 32 && rs2 < 32,
            Instr::Fence { rd, rs1, value } => rd < 32 && rs1 < 32 && is_signed(2048, value),
            Instr::Ecall | Instr::Ebreak => true,
        }
    }
}
