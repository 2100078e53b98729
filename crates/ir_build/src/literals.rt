// The numbers of literals.
ghost use Rattle.std.specs.Prelude.{◌≡◌};
ghost use Rattle.ir_build.specs.Code.{literal_of, number_of};

use tu_expr::{PrimaryForm, Term, primary_of};

const LARGEST: u64 = 2_147_483_647;

/// The number that digits spell, or the largest int where it is none.
pub fn number_of(digits: &[u8]) -> u32
    ensures { result ≡ number_of digits.now }
{
    let mut number = 0u64;
    for digit in digits {
        number = 10 * number + (*digit as u64).saturating_sub(48);
        if number > LARGEST {
            return LARGEST as u32;
        }
    }
    number as u32
}

/// The number that a term is.
#[tactic(auto, using(crate::proofs::Operators::literal_by, crate::proofs::Operators::term_more))]
pub fn literal_of(term: &Term) -> Option<u32>
    ensures { result ≡ literal_of term.now }
{
    if !term.more.is_empty() {
        return None;
    }
    match primary_of(&term.first) {
        Err(_) => None,
        Ok(primary) => match &primary.form {
            PrimaryForm::Number(digits) => Some(number_of(digits.text.as_slice())),
            PrimaryForm::True
            | PrimaryForm::False
            | PrimaryForm::Path(_)
            | PrimaryForm::Brackets(_)
            | PrimaryForm::Text(..)
            | PrimaryForm::Nil(_) => None,
        },
    }
}
