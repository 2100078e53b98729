// Why a source is not checked.
ghost use Rattle.std.specs.Prelude.{◌≡◌};
ghost use Rattle.tu_check.specs.Errors.{error_of_names, lexical_error, syntax_error};
ghost use Rattle.tu_check.specs.declared.error.CheckError.TheVariants as check_error;

use crate::Refusal;
use thiserror::Error;
use tu_base::Memory;
use tu_scope::ScopeError;
use tu_token::{LexError, ParseError};

/// Why a source is not checked.
#[derive(Clone, Copy, PartialEq, Eq, Debug, Error)]
pub enum CheckError {
    /// It is refused.
    #[error(transparent)]
    Refused(Refusal),
    /// Want of memory.
    #[error("out of memory")]
    Memory,
}

impl From<LexError> for CheckError {
    ghost from_gives = { λ error given. given ≡ lexical_error error };

    fn from(error: LexError) -> Self {
        match error {
            LexError::Memory => CheckError::Memory,
            error => CheckError::Refused(Refusal::Lexical(error)),
        }
    }
}

impl From<ParseError> for CheckError {
    ghost from_gives = { λ error given. given ≡ syntax_error error };

    fn from(error: ParseError) -> Self {
        match error {
            ParseError::Unexpected { line, .. } => CheckError::Refused(Refusal::Syntax(line)),
            ParseError::Memory => CheckError::Memory,
        }
    }
}

impl From<ScopeError> for CheckError {
    ghost from_gives = { λ error given. given ≡ error_of_names error };

    fn from(error: ScopeError) -> Self {
        match error {
            ScopeError::Memory => CheckError::Memory,
            error => CheckError::Refused(Refusal::Scope(error)),
        }
    }
}

impl From<Memory> for CheckError {
    ghost from_gives = { λ _ given. given ≡ check_error.Memory };

    fn from(_: Memory) -> Self {
        CheckError::Memory
    }
}
