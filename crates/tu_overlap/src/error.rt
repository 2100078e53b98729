ghost use Rattle.std.specs.Prelude.{◌≡◌};

use thiserror::Error;
use tu_base::{Line, Memory};

/// Why two names may not stand for one variable.
#[derive(Clone, Copy, PartialEq, Eq, Debug, Error)]
pub enum AliasError {
    /// Two parameters of a call are the same part of a variable.
    #[error("line {0}: two parameters of one call that are the same variable")]
    SharedActual(Line),
    /// A parameter is a variable that the called subprogram reaches itself.
    #[error("line {0}: a parameter that the called subprogram also reaches itself")]
    ImportedActual(Line),
    /// A variable is named where a `bind` hides it.
    #[error("line {0}: a variable that a bind hides")]
    HiddenRoot(Line),
    /// A variable is changed while a `bind` names a part of it.
    #[error("line {0}: a change of a variable that is bound")]
    ChangedBound(Line),
    /// Want of memory.
    #[error("out of memory")]
    Memory,
}

impl From<Memory> for AliasError {
    ghost use Rattle.tu_overlap.specs.declared.error.AliasError.TheVariants.{Memory as alias_memory};

    ghost from_gives = { λ _ e. e ≡ alias_memory };

    fn from(_: Memory) -> Self {
        AliasError::Memory
    }
}
