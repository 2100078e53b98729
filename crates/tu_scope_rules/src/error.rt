// Why names are not resolved.
ghost use Rattle.std.specs.Prelude.{◌≡◌};
ghost use Rattle.tu_scope_rules.specs.Answers.{error_of};

use crate::fault::{Fault, FaultKind};
use thiserror::Error;
use tu_base::{Line, Memory};

/// Why a name has no meaning, with the line.
#[derive(Clone, Copy, PartialEq, Eq, Debug, Error)]
pub enum ScopeError {
    /// A used name that nothing declares where it could be seen.
    #[error("line {0}: a name that is declared nowhere visible")]
    Unknown(Line),
    /// A used name that only a missing import hides.
    #[error("line {0}: a name that is not imported here")]
    NotImported(Line),
    /// A name of a module that does not export it.
    #[error("line {0}: a name that its module does not export")]
    NotExported(Line),
    /// A name that is declared again in its scope, record, union or enumeration.
    #[error("line {0}: a name that is declared twice")]
    Twice(Line),
    /// A `forward` without a body.
    #[error("line {0}: a forward subprogram without a body")]
    BodyMissing(Line),
    /// An `end` with a name that was not opened.
    #[error("line {0}: an end with the name of another construct")]
    WrongEnd(Line),
    /// Want of memory.
    #[error("out of memory")]
    Memory,
}

impl From<Memory> for ScopeError {
    ghost use Rattle.tu_scope_rules.specs.declared.error.ScopeError.TheVariants.{Memory as want_of_memory};

    ghost from_gives = { λ given error. error ≡ want_of_memory };

    fn from(_: Memory) -> Self {
        ScopeError::Memory
    }
}

impl Fault {
    pub fn error(self) -> ScopeError
        ensures { result ≡ error_of self }
    {
        match self.kind {
            FaultKind::Unknown => ScopeError::Unknown(self.line),
            FaultKind::NotImported => ScopeError::NotImported(self.line),
            FaultKind::NotExported => ScopeError::NotExported(self.line),
            FaultKind::Twice => ScopeError::Twice(self.line),
            FaultKind::BodyMissing => ScopeError::BodyMissing(self.line),
            FaultKind::WrongEnd => ScopeError::WrongEnd(self.line),
        }
    }
}
