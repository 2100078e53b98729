ghost use Rattle.std.specs.Prelude.{◌≡◌};

use thiserror::Error;
use tu_base::{Line, Memory};

/// Why a function or a subprogram may not do what it does.
#[derive(Clone, Copy, PartialEq, Eq, Debug, Error)]
pub enum EffectError {
    /// A function has a `var` parameter.
    #[error("line {0}: a function with a var parameter")]
    FunctionVar(Line),
    /// A function changes a variable or collection that is not its own.
    #[error("line {0}: a function that changes what is not its own")]
    FunctionWrites(Line),
    /// A function uses console or streams.
    #[error("line {0}: a function that reads or writes outside")]
    FunctionTalks(Line),
    /// A name that is imported without `var` is changed.
    #[error("line {0}: a change of a name that is imported without var")]
    UnlistedWrite(Line),
    /// Want of memory.
    #[error("out of memory")]
    Memory,
}

impl From<Memory> for EffectError {
    ghost use Rattle.tu_effects.specs.declared.error.EffectError.TheVariants.{Memory as effect_memory};

    ghost from_gives = { λ _ e. e ≡ effect_memory };

    fn from(_: Memory) -> Self {
        EffectError::Memory
    }
}
