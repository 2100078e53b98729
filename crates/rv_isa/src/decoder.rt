ghost use Rattle.std.specs.Prelude.{◌≡◌, IfSome, IfNone};
ghost use Rattle.rv_isa.specs.Encoding.{Fits, encoding, decoding, jalr_at, branch_at, load_at, store_at, shift_at, immediate_at, register_at, fence_at, system_at, rd_of, funct3_of, rs1_of, rs2_of, funct7_of, immediate_of, store_offset_of, branch_offset_of, jump_offset_of};
ghost use Rattle.rv_isa.specs.Tables.{entry, relations, loads, stores, immediate_ops, shifts, register_ops};

use crate::instr::{ImmediateOp, Instr, LoadKind, RegisterOp, Relation, ShiftOp, StoreKind};

// Operations by their numbers: funct3, or funct3 and 8 times funct7.

#[inline]
fn relation(funct3: u32) -> Option<Relation>
    ensures { result ≡ entry relations funct3 }
{
    match funct3 {
        0 => Some(Relation::Equal),
        1 => Some(Relation::NotEqual),
        4 => Some(Relation::Less),
        5 => Some(Relation::GreaterOrEqual),
        6 => Some(Relation::LessUnsigned),
        7 => Some(Relation::GreaterOrEqualUnsigned),
        _ => None,
    }
}

#[inline]
fn load_kind(funct3: u32) -> Option<LoadKind>
    ensures { result ≡ entry loads funct3 }
{
    match funct3 {
        0 => Some(LoadKind::Byte),
        1 => Some(LoadKind::Half),
        2 => Some(LoadKind::Word),
        4 => Some(LoadKind::ByteUnsigned),
        5 => Some(LoadKind::HalfUnsigned),
        _ => None,
    }
}

#[inline]
fn store_kind(funct3: u32) -> Option<StoreKind>
    ensures { result ≡ entry stores funct3 }
{
    match funct3 {
        0 => Some(StoreKind::Byte),
        1 => Some(StoreKind::Half),
        2 => Some(StoreKind::Word),
        _ => None,
    }
}

#[inline]
fn immediate_op(funct3: u32) -> Option<ImmediateOp>
    ensures { result ≡ entry immediate_ops funct3 }
{
    match funct3 {
        0 => Some(ImmediateOp::Addi),
        2 => Some(ImmediateOp::Slti),
        3 => Some(ImmediateOp::Sltiu),
        4 => Some(ImmediateOp::Xori),
        6 => Some(ImmediateOp::Ori),
        7 => Some(ImmediateOp::Andi),
        _ => None,
    }
}

#[inline]
fn shift_op(number: u32) -> Option<ShiftOp>
    ensures { result ≡ entry shifts number }
{
    match number {
        1 => Some(ShiftOp::Slli),
        5 => Some(ShiftOp::Srli),
        261 => Some(ShiftOp::Srai),
        _ => None,
    }
}

#[inline]
fn register_op(number: u32) -> Option<RegisterOp>
    ensures { result ≡ entry register_ops number }
{
    match number {
        0 => Some(RegisterOp::Add),
        256 => Some(RegisterOp::Sub),
        1 => Some(RegisterOp::Sll),
        2 => Some(RegisterOp::Slt),
        3 => Some(RegisterOp::Sltu),
        4 => Some(RegisterOp::Xor),
        5 => Some(RegisterOp::Srl),
        261 => Some(RegisterOp::Sra),
        6 => Some(RegisterOp::Or),
        7 => Some(RegisterOp::And),
        8 => Some(RegisterOp::Mul),
        9 => Some(RegisterOp::Mulh),
        10 => Some(RegisterOp::Mulhsu),
        11 => Some(RegisterOp::Mulhu),
        12 => Some(RegisterOp::Div),
        13 => Some(RegisterOp::Divu),
        14 => Some(RegisterOp::Rem),
        15 => Some(RegisterOp::Remu),
        _ => None,
    }
}

// The fields of a word. A quotient by 2^k drops the k low bits, and a remainder keeps just them.

#[inline]
fn rd(word: u32) -> u8
    ensures { result ≡ rd_of word }
{
    (word / 128 % 32) as u8
}

#[inline]
fn funct3(word: u32) -> u32
    ensures { result ≡ funct3_of word }
{
    word / 4096 % 8
}

#[inline]
fn rs1(word: u32) -> u8
    ensures { result ≡ rs1_of word }
{
    (word / 32768 % 32) as u8
}

#[inline]
fn rs2(word: u32) -> u8
    ensures { result ≡ rs2_of word }
{
    (word / 1048576 % 32) as u8
}

#[inline]
fn funct7(word: u32) -> u32
    ensures { result ≡ funct7_of word }
{
    word / 33554432
}

#[inline]
fn immediate(word: u32) -> u32
    ensures { result ≡ immediate_of word }
{
    ((word / 1048576 + 2048) % 4096).wrapping_sub(2048)
}

#[inline]
fn store_offset(word: u32) -> u32
    ensures { result ≡ store_offset_of word }
{
    ((word / 128 % 32 + 32 * (word / 33554432) + 2048) % 4096).wrapping_sub(2048)
}

#[inline]
fn branch_offset(word: u32) -> u32
    ensures { result ≡ branch_offset_of word }
{
    let low = 2 * (word / 256 % 16) + 32 * (word / 33554432 % 64);
    let high = 2048 * (word / 128 % 2) + 4096 * (word / 2147483648);
    ((low + high + 4096) % 8192).wrapping_sub(4096)
}

#[inline]
fn jump_offset(word: u32) -> u32
    ensures { result ≡ jump_offset_of word }
{
    let low = 2 * (word / 2097152 % 1024) + 2048 * (word / 1048576 % 2);
    let high = 4096 * (word / 4096 % 256) + 1048576 * (word / 2147483648);
    ((low + high + 1048576) % 2097152).wrapping_sub(1048576)
}

// The instruction of a word, by its opcode.

#[inline]
fn shift(word: u32) -> Option<Instr>
    ensures { result ≡ shift_at word }
{
    let op = shift_op(funct3(word) + 8 * funct7(word))?;
    Some(Instr::Shift {
        op,
        rd: rd(word),
        rs1: rs1(word),
        amount: rs2(word),
    })
}

#[inline]
fn branch(word: u32) -> Option<Instr>
    ensures { result ≡ branch_at word }
{
    let relation = relation(funct3(word))?;
    Some(Instr::Branch {
        relation,
        rs1: rs1(word),
        rs2: rs2(word),
        offset: branch_offset(word),
    })
}

#[inline]
fn jalr(word: u32) -> Option<Instr>
    ensures { result ≡ jalr_at word }
{
    if funct3(word) != 0 {
        return None;
    }
    Some(Instr::Jalr {
        rd: rd(word),
        rs1: rs1(word),
        offset: immediate(word),
    })
}

#[inline]
fn load(word: u32) -> Option<Instr>
    ensures { result ≡ load_at word }
{
    let kind = load_kind(funct3(word))?;
    Some(Instr::Load {
        kind,
        rd: rd(word),
        rs1: rs1(word),
        offset: immediate(word),
    })
}

#[inline]
fn store(word: u32) -> Option<Instr>
    ensures { result ≡ store_at word }
{
    let kind = store_kind(funct3(word))?;
    Some(Instr::Store {
        kind,
        rs1: rs1(word),
        rs2: rs2(word),
        offset: store_offset(word),
    })
}

#[inline]
fn with_immediate(word: u32) -> Option<Instr>
    ensures { result ≡ immediate_at word }
{
    if funct3(word) % 4 == 1 {
        return shift(word);
    }
    let op = immediate_op(funct3(word))?;
    Some(Instr::Immediate {
        op,
        rd: rd(word),
        rs1: rs1(word),
        value: immediate(word),
    })
}

#[inline]
fn register(word: u32) -> Option<Instr>
    ensures { result ≡ register_at word }
{
    let op = register_op(funct3(word) + 8 * funct7(word))?;
    Some(Instr::Register {
        op,
        rd: rd(word),
        rs1: rs1(word),
        rs2: rs2(word),
    })
}

#[inline]
fn fence(word: u32) -> Option<Instr>
    ensures { result ≡ fence_at word }
{
    if funct3(word) != 0 {
        return None;
    }
    Some(Instr::Fence {
        rd: rd(word),
        rs1: rs1(word),
        value: immediate(word),
    })
}

#[inline]
fn system(word: u32) -> Option<Instr>
    ensures { result ≡ system_at word }
{
    match word {
        0x73 => Some(Instr::Ecall),
        0x0010_0073 => Some(Instr::Ebreak),
        _ => None,
    }
}

#[tactic(auto, unfolding(crate::specs::Encoding::decoding))]
#[inline]
fn decode_word(word: u32) -> Option<Instr>
    ensures { result ≡ decoding word }
{
    match word % 128 {
        0x37 => Some(Instr::Lui {
            rd: rd(word),
            upper: word / 4096 * 4096,
        }),
        0x17 => Some(Instr::Auipc {
            rd: rd(word),
            upper: word / 4096 * 4096,
        }),
        0x6f => Some(Instr::Jal {
            rd: rd(word),
            offset: jump_offset(word),
        }),
        0x67 => jalr(word),
        0x63 => branch(word),
        0x03 => load(word),
        0x23 => store(word),
        0x13 => with_immediate(word),
        0x33 => register(word),
        0x0f => fence(word),
        0x73 => system(word),
        _ => None,
    }
}

/// The instruction of a word, and None exactly where no instruction has this word.
#[tactic(auto, using(crate::proofs::RoundTrip::spelled))]
#[inline]
pub fn decode(word: u32) -> Option<Instr>
    ensures is { result ≡ decoding word }
    ensures found { IfSome result (λ op. Fits op × (encoding op ≡ word)) }
    ensures none { IfNone result ((op : Instr) → Fits op → encoding op ≡ word → ⊥) }
{
    decode_word(word)
}
