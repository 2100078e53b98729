// What the operations compute.

ghost use Rattle.std.specs.Prelude.{◌≡◌, ◌<◌};
ghost use Rattle.rv_isa.specs.Arithmetic.{wide, register_value, immediate_value, shift_value, holds};

use rv_isa::{ImmediateOp, RegisterOp, Relation, ShiftOp};

// A word with its sign, in 64 bits.
#[inline]
fn widened(a: u32) -> u64
    ensures { result ≡ wide a }
{
    i64::from(a.cast_signed()).cast_unsigned()
}

#[inline]
fn quotient(a: u32, b: u32) -> u32
    ensures { result ≡ register_value RegisterOp.Div a b }
{
    if b == 0 {
        u32::MAX
    } else if a == 0x8000_0000 && b == u32::MAX {
        a
    } else {
        (a.cast_signed() / b.cast_signed()).cast_unsigned()
    }
}

#[inline]
fn remainder(a: u32, b: u32) -> u32
    ensures { result ≡ register_value RegisterOp.Rem a b }
{
    if b == 0 {
        a
    } else if a == 0x8000_0000 && b == u32::MAX {
        0
    } else {
        (a.cast_signed() % b.cast_signed()).cast_unsigned()
    }
}

#[inline]
pub fn of_registers(op: RegisterOp, a: u32, b: u32) -> u32
    ensures { result ≡ register_value op a b }
{
    match op {
        RegisterOp::Add => a.wrapping_add(b),
        RegisterOp::Sub => a.wrapping_sub(b),
        RegisterOp::Sll => a << (b % 32),
        RegisterOp::Slt => (a.cast_signed() < b.cast_signed()) as u32,
        RegisterOp::Sltu => (a < b) as u32,
        RegisterOp::Xor => a ^ b,
        RegisterOp::Srl => a >> (b % 32),
        RegisterOp::Sra => ((widened(a) >> (b % 32)) % 4294967296) as u32,
        RegisterOp::Or => a | b,
        RegisterOp::And => a & b,
        RegisterOp::Mul => a.wrapping_mul(b),
        RegisterOp::Mulh => (widened(a).wrapping_mul(widened(b)) >> 32) as u32,
        RegisterOp::Mulhsu => (widened(a).wrapping_mul(b as u64) >> 32) as u32,
        RegisterOp::Mulhu => (a as u64 * b as u64 >> 32) as u32,
        RegisterOp::Div => quotient(a, b),
        RegisterOp::Divu => if b == 0 { u32::MAX } else { a / b },
        RegisterOp::Rem => remainder(a, b),
        RegisterOp::Remu => if b == 0 { a } else { a % b },
    }
}

#[inline]
pub fn of_immediate(op: ImmediateOp, a: u32, b: u32) -> u32
    ensures { result ≡ immediate_value op a b }
{
    match op {
        ImmediateOp::Addi => a.wrapping_add(b),
        ImmediateOp::Slti => (a.cast_signed() < b.cast_signed()) as u32,
        ImmediateOp::Sltiu => (a < b) as u32,
        ImmediateOp::Xori => a ^ b,
        ImmediateOp::Ori => a | b,
        ImmediateOp::Andi => a & b,
    }
}

#[inline]
pub fn shifted(op: ShiftOp, a: u32, amount: u8) -> u32
    requires { amount < 32 }
    ensures { result ≡ shift_value op a amount }
{
    match op {
        ShiftOp::Slli => a << amount,
        ShiftOp::Srli => a >> amount,
        ShiftOp::Srai => ((widened(a) >> amount) % 4294967296) as u32,
    }
}

#[inline]
pub fn compared(relation: Relation, a: u32, b: u32) -> bool
    ensures { result ≡ holds relation a b }
{
    match relation {
        Relation::Equal => a == b,
        Relation::NotEqual => a != b,
        Relation::Less => a.cast_signed() < b.cast_signed(),
        Relation::GreaterOrEqual => a.cast_signed() >= b.cast_signed(),
        Relation::LessUnsigned => a < b,
        Relation::GreaterOrEqualUnsigned => a >= b,
    }
}
