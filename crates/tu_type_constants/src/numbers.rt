// Operators on constants that are numbers or truth values.
ghost use Rattle.std.specs.Prelude.{◌≡◌};
ghost use Rattle.tu_type_constants.specs.Constants.{prefixed_by, all_prefixed, of_numbers, unless_decided, of_truths};

use crate::Constant;
use crate::constant::{beside_other, beside_raising, of_int, of_truth};
use crate::scalars::{binary, decided, unary};
use tu_base::{Binary, Junction, Unary};

fn prefixed_by(operator: Unary, x: Constant) -> Constant
    ensures { result ≡ prefixed_by operator x }
{
    match x {
        Constant::NoConstant => Constant::NoConstant,
        Constant::Raising => Constant::Raising,
        Constant::Is(z) => of_int(unary(operator, z)),
        Constant::IsText(_) => Constant::NoConstant,
    }
}

/// Prefix operators before an operand. The last one is applied first.
pub fn prefixed(operators: &[Unary], x: Constant) -> Constant
    ensures { result ≡ all_prefixed operators.now x }
{
    let mut value = x;
    let mut left = operators.len();
    while left > 0 {
        left -= 1;
        value = prefixed_by(operators[left], value);
    }
    value
}

/// An operator on two numbers. It is a constant expression if both operands are, and it would
/// raise an exception where it does itself or one of them would.
pub fn of_numbers(operator: Binary, x: &Constant, y: &Constant) -> Constant
    ensures { result ≡ of_numbers operator x.now y.now }
{
    match x {
        Constant::NoConstant => Constant::NoConstant,
        Constant::Raising => beside_raising(y),
        Constant::Is(a) => match y {
            Constant::NoConstant => Constant::NoConstant,
            Constant::Raising => Constant::Raising,
            Constant::Is(b) => of_int(binary(operator, *a, *b)),
            Constant::IsText(_) => Constant::NoConstant,
        },
        Constant::IsText(_) => beside_other(y),
    }
}

fn unless_decided(decision: Option<bool>, y: Constant) -> Constant
    ensures { result ≡ unless_decided decision y }
{
    match decision {
        None => y,
        Some(b) => match y {
            Constant::NoConstant => Constant::NoConstant,
            Constant::Raising => of_truth(b),
            Constant::Is(_) => of_truth(b),
            Constant::IsText(_) => of_truth(b),
        },
    }
}

/// An operator on two truth values. It is a constant expression if both operands are. Where the
/// left one decides, the right one may raise an exception.
pub fn of_truths(operator: Junction, x: &Constant, y: Constant) -> Constant
    ensures { result ≡ of_truths operator x.now y }
{
    match x {
        Constant::NoConstant => Constant::NoConstant,
        Constant::Raising => beside_raising(&y),
        Constant::Is(a) => unless_decided(decided(operator, a.get() != 0), y),
        Constant::IsText(_) => Constant::NoConstant,
    }
}
