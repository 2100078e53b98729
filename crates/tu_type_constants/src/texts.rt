// Operators on constants that are texts.
ghost use Rattle.std.specs.Prelude.{◌≡◌, IfOk};
ghost use Rattle.tu_base.specs.Texts.{text_compared, joined as joined_text};
ghost use Rattle.tu_type_constants.specs.Constants.{of_text, of_texts, of_joined};

use crate::Constant;
use crate::constant::{beside_other, beside_raising, of_truth};
use crate::scalars::by_order;
use std::alloc::Global;
use tu_base::{Bytes, MOST_TEXT_BYTES, Memory, Relation};

/// A text comes before one that it begins, and else the first byte that differs decides.
fn compare_texts(relation: Relation, a: &Bytes, b: &Bytes) -> bool
    ensures { result ≡ text_compared relation a.now b.now }
{
    by_order(relation, a.as_slice().cmp(b.as_slice()))
}

/// A relation of two texts. It is a constant expression if both operands are, and would raise an
/// exception where one of them would.
pub fn of_texts(relation: Relation, x: &Constant, y: &Constant) -> Constant
    ensures { result ≡ of_texts relation x.now y.now }
{
    match x {
        Constant::NoConstant => Constant::NoConstant,
        Constant::Raising => beside_raising(y),
        Constant::Is(_) => beside_other(y),
        Constant::IsText(a) => match y {
            Constant::NoConstant => Constant::NoConstant,
            Constant::Raising => Constant::Raising,
            Constant::Is(_) => Constant::NoConstant,
            Constant::IsText(b) => of_truth(compare_texts(relation, a, b)),
        },
    }
}

/// One text behind another, or want of memory.
fn joined(alloc: Global, a: &Bytes, b: &Bytes) -> Result<Constant, Memory>
    ensures { IfOk result (λ c. c ≡ of_text (joined_text a.now b.now)) }
{
    if a.len().saturating_add(b.len()) > MOST_TEXT_BYTES as usize {
        return Ok(Constant::Raising);
    }
    let mut bytes = Bytes::from_slice(alloc, a.as_slice())?;
    bytes.extend(b.as_slice())?;
    Ok(Constant::IsText(bytes))
}

/// Two texts, one behind the other, or want of memory. It is a constant expression if both
/// operands are, and would raise an exception where it passes `MOST_TEXT_BYTES` or one of them
/// would.
pub fn of_joined(alloc: Global, x: &Constant, y: &Constant) -> Result<Constant, Memory>
    ensures { IfOk result (λ c. c ≡ of_joined x.now y.now) }
{
    match x {
        Constant::NoConstant => Ok(Constant::NoConstant),
        Constant::Raising => Ok(beside_raising(y)),
        Constant::Is(_) => Ok(beside_other(y)),
        Constant::IsText(a) => match y {
            Constant::NoConstant => Ok(Constant::NoConstant),
            Constant::Raising => Ok(Constant::Raising),
            Constant::Is(_) => Ok(Constant::NoConstant),
            Constant::IsText(b) => joined(alloc, a, b),
        },
    }
}
