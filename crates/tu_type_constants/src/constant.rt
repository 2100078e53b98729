// What an expression is as a constant expression.
ghost use Rattle.std.specs.Prelude.{◌≡◌, ℕ, ℤ, List, IfOk};
ghost use Rattle.tu_base.specs.Scalars.{truth_number};
ghost use Rattle.tu_type_constants.specs.declared.constant.Constant.{Constant};
ghost use Rattle.tu_type_constants.specs.declared.constant.Constant.TheVariants.{NoConstant, Raising, Is, IsText};
ghost use Rattle.tu_type_constants.specs.Constants.{of_int, with_both, number_in};

use std::alloc::Global;
use tu_base::{Bytes, Memory};
use tu_type_base::Int;

/// What an expression comes to before the program runs.
#[derive(Drop)]
pub enum Constant {
    /// It is no constant expression.
    NoConstant,
    /// It is a constant expression that would raise an exception.
    Raising,
    /// The number of an int, a truth value (0 or 1) or an enumeration value (its place).
    Is(Int),
    /// The bytes of a text.
    IsText(Bytes),
}

impl Constant {
    /// Another constant of the same value, or want of memory.
    pub fn duplicate(&self, alloc: Global) -> Result<Constant, Memory>
        ensures { IfOk result (λ c. c ≡ self.now) }
    {
        match self {
            Constant::NoConstant => Ok(Constant::NoConstant),
            Constant::Raising => Ok(Constant::Raising),
            Constant::Is(z) => Ok(Constant::Is(*z)),
            Constant::IsText(bytes) => {
                let copy = Bytes::from_slice(alloc, bytes.as_slice())?;
                Ok(Constant::IsText(copy))
            }
        }
    }
}

/// The number of a constant expression that has one.
pub fn number_in(x: &Constant) -> Option<Int>
    ensures { result ≡ number_in x.now }
{
    match x {
        Constant::NoConstant => None,
        Constant::Raising => None,
        Constant::Is(z) => Some(*z),
        Constant::IsText(_) => None,
    }
}

/// The constant of what an operator gives, which is none where it raises an exception.
pub fn of_int(answer: Option<Int>) -> Constant
    ensures { result ≡ of_int answer }
{
    match answer {
        Some(z) => Constant::Is(z),
        None => Constant::Raising,
    }
}

/// The constant of a truth value.
pub fn of_truth(b: bool) -> Constant
    ensures { result ≡ Is (truth_number b) }
{
    of_int(Int::new(i32::from(b)))
}

/// What comes of a left operand that would raise an exception.
pub fn beside_raising(y: &Constant) -> Constant
    ensures { (numbers : ℤ → ℤ → Constant) (texts : List ℕ → List ℕ → Constant) → result ≡ with_both numbers texts Raising y.now }
{
    match y {
        Constant::NoConstant => Constant::NoConstant,
        Constant::Raising => Constant::Raising,
        Constant::Is(_) => Constant::Raising,
        Constant::IsText(_) => Constant::Raising,
    }
}

/// What comes of a left operand whose values the operator does not take.
pub fn beside_other(y: &Constant) -> Constant
    ensures of_texts { (texts : List ℕ → List ℕ → Constant) (z : ℤ) → result ≡ with_both (λ a b. NoConstant) texts (Is z) y.now }
    ensures of_numbers { (numbers : ℤ → ℤ → Constant) (bytes : List ℕ) → result ≡ with_both numbers (λ a b. NoConstant) (IsText bytes) y.now }
{
    match y {
        Constant::NoConstant => Constant::NoConstant,
        Constant::Raising => Constant::Raising,
        Constant::Is(_) => Constant::NoConstant,
        Constant::IsText(_) => Constant::NoConstant,
    }
}
