ghost use Rattle.std.specs.Prelude.{◌≡◌, ◌+◌, ◌<◌, ◌≤◌, IfOk, OnOk};
ghost use Rattle.tu_base.specs.declared.limits.TheConstants.{MOST_INT};
ghost use Rattle.tu_base.specs.declared.kind.Kind.TheVariants.{Overflow};
ghost use Rattle.ir_code.specs.Pieces.{raise_unless, with_op};
ghost use Rattle.tu_value.specs.Pieces.{difference_code, fetch_code, fixed_code, fixed_from, less_code, literal_code, more_code, number_code, product_code, store_code, sum_code, unset_code, with_piece};

use ir_code::Code;
use ir_form::Width;
use rv_isa::{RegisterOp, Relation};
use std::alloc::Global;
use tu_base::{Kind, Line, Memory};

/// The numbers of two values that a routine begins with: the words 0 and 2^31.
#[derive(Clone, Copy, Debug)]
pub struct Fixed {
    pub zero: u32,
    pub top: u32,
}

// By so much the word of an int is above it.
const ABOVE: u32 = 2_147_483_648;

/// Appends the two values that a routine begins with.
pub fn fixed_values(code: &mut Code) -> Result<Fixed, Memory>
    requires { code.old.next + 2 ≤ 4294967295 }
    ensures appended { OnOk result (code.new ≡ with_piece code.old (fixed_code code.old.next) 2) }
    ensures values { IfOk result (λ values. values ≡ fixed_from code.old.next) }
{
    let zero = code.constant(0)?;
    let top = code.constant(ABOVE)?;
    Ok(Fixed { zero, top })
}

/// Appends an int as it is written in the program.
pub fn literal(code: &mut Code, number: u32) -> Result<u32, Memory>
    requires room { code.old.next < 4294967295 }
    requires small { number ≤ MOST_INT }
    ensures appended { OnOk result
        (code.new ≡ with_piece code.old (literal_code number code.old.next) 1) }
    ensures value { IfOk result (λ value. value ≡ code.old.next) }
{
    code.constant(ABOVE + number)
}

// Appends an exception where the relation does not hold.
fn overflow_unless(
    code: &mut Code,
    alloc: Global,
    relation: Relation,
    left: u32,
    right: u32,
    line: Line,
) -> Result<(), Memory>
    ensures { OnOk result
        (code.new ≡ with_op code.old (raise_unless relation left right Overflow line)) }
{
    code.raise_unless(alloc, relation, left, right, Kind::Overflow, line)
}

/// Appends the reading of what was stored at an address.
pub fn fetch(
    code: &mut Code,
    alloc: Global,
    fixed: Fixed,
    line: Line,
    at: u32,
) -> Result<u32, Memory>
    requires { code.old.next < 4294967295 }
    ensures appended { OnOk result
        (code.new ≡ with_piece code.old (fetch_code fixed line at code.old.next) 1) }
    ensures value { IfOk result (λ value. value ≡ code.old.next) }
{
    let value = code.load(Width::Word, at)?;
    code.raise_unless(
        alloc,
        Relation::NotEqual,
        value,
        fixed.zero,
        Kind::Unset,
        line,
    )?;
    Ok(value)
}

/// Appends the storing of a value at an address.
pub fn store(code: &mut Code, at: u32, from: u32) -> Result<(), Memory>
    ensures { OnOk result (code.new ≡ with_piece code.old (store_code at from) 0) }
{
    code.store(Width::Word, at, from)
}

/// Appends what makes the variable at an address unset.
pub fn unset(code: &mut Code, fixed: Fixed, at: u32) -> Result<(), Memory>
    ensures { OnOk result (code.new ≡ with_piece code.old (unset_code fixed at) 0) }
{
    store(code, at, fixed.zero)
}

/// Appends the number of an int, as a word of the machine in two's complement.
pub fn number(code: &mut Code, fixed: Fixed, value: u32) -> Result<u32, Memory>
    requires { code.old.next < 4294967295 }
    ensures appended { OnOk result
        (code.new ≡ with_piece code.old (number_code fixed value code.old.next) 1) }
    ensures value { IfOk result (λ value. value ≡ code.old.next) }
{
    code.compute(RegisterOp::Add, value, fixed.top)
}

/// Appends the sum of two ints.
pub fn sum(
    code: &mut Code,
    alloc: Global,
    fixed: Fixed,
    line: Line,
    left: u32,
    right: u32,
) -> Result<u32, Memory>
    requires { code.old.next + 4 ≤ 4294967295 }
    ensures appended { OnOk result
        (code.new ≡ with_piece code.old (sum_code fixed line left right code.old.next) 4) }
    ensures value { IfOk result (λ value. value ≡ code.old.next + 1) }
{
    let words = code.compute(RegisterOp::Add, left, right)?;
    let total = code.compute(RegisterOp::Add, words, fixed.top)?;
    let falls = code.compute(RegisterOp::Sltu, total, left)?;
    let below_zero = code.compute(RegisterOp::Sltu, right, fixed.top)?;
    overflow_unless(code, alloc, Relation::Equal, falls, below_zero, line)?;
    overflow_unless(code, alloc, Relation::NotEqual, total, fixed.zero, line)?;
    Ok(total)
}

/// Appends the difference of two ints.
pub fn difference(
    code: &mut Code,
    alloc: Global,
    fixed: Fixed,
    line: Line,
    left: u32,
    right: u32,
) -> Result<u32, Memory>
    requires { code.old.next + 4 ≤ 4294967295 }
    ensures appended { OnOk result
        (code.new ≡ with_piece code.old (difference_code fixed line left right code.old.next) 4) }
    ensures value { IfOk result (λ value. value ≡ code.old.next + 1) }
{
    let words = code.compute(RegisterOp::Sub, left, right)?;
    let value = code.compute(RegisterOp::Add, words, fixed.top)?;
    let rises = code.compute(RegisterOp::Sltu, left, value)?;
    let below_zero = code.compute(RegisterOp::Sltu, right, fixed.top)?;
    overflow_unless(code, alloc, Relation::Equal, rises, below_zero, line)?;
    overflow_unless(code, alloc, Relation::NotEqual, value, fixed.zero, line)?;
    Ok(value)
}

/// Appends the product of two ints.
pub fn product(
    code: &mut Code,
    alloc: Global,
    fixed: Fixed,
    line: Line,
    left: u32,
    right: u32,
) -> Result<u32, Memory>
    requires { code.old.next + 7 ≤ 4294967295 }
    ensures appended { OnOk result
        (code.new ≡ with_piece code.old (product_code fixed line left right code.old.next) 7) }
    ensures value { IfOk result (λ value. value ≡ code.old.next + 6) }
{
    let first = code.compute(RegisterOp::Add, left, fixed.top)?;
    let second = code.compute(RegisterOp::Add, right, fixed.top)?;
    let lower = code.compute(RegisterOp::Mul, first, second)?;
    let upper = code.compute(RegisterOp::Mulh, first, second)?;
    let bits = code.constant(31)?;
    let sign = code.compute(RegisterOp::Sra, lower, bits)?;
    overflow_unless(code, alloc, Relation::Equal, upper, sign, line)?;
    let value = code.compute(RegisterOp::Add, lower, fixed.top)?;
    overflow_unless(code, alloc, Relation::NotEqual, value, fixed.zero, line)?;
    Ok(value)
}

/// Appends the sum of an int and a number.
pub fn more(
    code: &mut Code,
    alloc: Global,
    line: Line,
    left: u32,
    number: u32,
) -> Result<u32, Memory>
    requires { code.old.next + 2 ≤ 4294967295 }
    ensures appended { OnOk result
        (code.new ≡ with_piece code.old (more_code line left number code.old.next) 2) }
    ensures value { IfOk result (λ value. value ≡ code.old.next + 1) }
{
    let added = code.constant(number)?;
    let value = code.compute(RegisterOp::Add, left, added)?;
    overflow_unless(
        code,
        alloc,
        Relation::GreaterOrEqualUnsigned,
        value,
        left,
        line,
    )?;
    Ok(value)
}

/// Appends the difference of an int and a number.
pub fn less(
    code: &mut Code,
    alloc: Global,
    line: Line,
    left: u32,
    number: u32,
) -> Result<u32, Memory>
    requires { code.old.next + 2 ≤ 4294967295 }
    ensures appended { OnOk result
        (code.new ≡ with_piece code.old (less_code line left number code.old.next) 2) }
    ensures value { IfOk result (λ value. value ≡ code.old.next + 1) }
{
    let taken = code.constant(number)?;
    let value = code.compute(RegisterOp::Sub, left, taken)?;
    overflow_unless(code, alloc, Relation::LessUnsigned, taken, left, line)?;
    Ok(value)
}
