// Why a source is refused, by the groups of faults in their order. The faults of lexemes, tokens and names are those of the lexer,
// the parser and the check of scopes; those of the later groups stand here until the checks that find them do.
ghost use Rattle.std.specs.Prelude.{◌≡◌};

use thiserror::Error;
use tu_base::{Line, Memory};
use tu_scope::ScopeError;
use tu_token::LexError;

/// Why an expression or a declaration has no type.
#[derive(Clone, Copy, PartialEq, Eq, Debug, Error)]
pub enum TypeError {
    /// A form stands where it may not.
    #[error("line {0}: a form that may not stand here")]
    Misplaced(Line),
    /// A part has a type that the form does not take.
    #[error("line {0}: a part of another type than is taken here")]
    Mismatch(Line),
    /// A bound, size or label is no constant expression, or would raise.
    #[error("line {0}: a bound, size or label that is no constant")]
    NotConstant(Line),
    /// A bound, size, set or label is out of its range.
    #[error("line {0}: a bound, size, set or label out of its range")]
    OutOfRange(Line),
    /// A changed path is no variable.
    #[error("line {0}: a change of what is no variable")]
    NotVariable(Line),
    /// A call, a subscript or an `init` has a wrong number of parts.
    #[error("line {0}: a wrong number of parts")]
    BadCount(Line),
    /// A type, the globals, a room or a list of parts is larger than allowed.
    #[error("line {0}: more words, parts or parameters than are allowed")]
    TooLarge(Line),
    /// A form is not yet compiled.
    #[error("line {0}: a form that is not yet compiled")]
    NotBuilt(Line),
    /// Want of memory.
    #[error("out of memory")]
    Memory,
}

impl From<Memory> for TypeError {
    ghost use Rattle.tu_check.specs.declared.refusal.TypeError.TheVariants.{Memory as type_memory};

    ghost from_gives = { λ _ e. e ≡ type_memory };

    fn from(_: Memory) -> Self {
        TypeError::Memory
    }
}

/// Why a function or a subprogram may not do what it does.
#[derive(Clone, Copy, PartialEq, Eq, Debug, Error)]
pub enum EffectError {
    /// A function has a `var` parameter.
    #[error("line {0}: a function with a var parameter")]
    FunctionVar(Line),
    /// A function changes a variable or collection that is not its own.
    #[error("line {0}: a function that changes what is not its own")]
    FunctionWrites(Line),
    /// A function uses console or streams.
    #[error("line {0}: a function that reads or writes outside")]
    FunctionTalks(Line),
    /// A name that is imported without `var` is changed.
    #[error("line {0}: a change of a name that is imported without var")]
    UnlistedWrite(Line),
    /// Want of memory.
    #[error("out of memory")]
    Memory,
}

impl From<Memory> for EffectError {
    ghost use Rattle.tu_check.specs.declared.refusal.EffectError.TheVariants.{Memory as effect_memory};

    ghost from_gives = { λ _ e. e ≡ effect_memory };

    fn from(_: Memory) -> Self {
        EffectError::Memory
    }
}

/// Why two names may not stand for one variable.
#[derive(Clone, Copy, PartialEq, Eq, Debug, Error)]
pub enum AliasError {
    /// Two parameters of a call are the same part of a variable.
    #[error("line {0}: two parameters of one call that are the same variable")]
    SharedActual(Line),
    /// A parameter is a variable that the called subprogram reaches itself.
    #[error("line {0}: a parameter that the called subprogram also reaches itself")]
    ImportedActual(Line),
    /// A variable is named where a `bind` hides it.
    #[error("line {0}: a variable that a bind hides")]
    HiddenRoot(Line),
    /// A variable is changed while a `bind` names a part of it.
    #[error("line {0}: a change of a variable that is bound")]
    ChangedBound(Line),
    /// Want of memory.
    #[error("out of memory")]
    Memory,
}

impl From<Memory> for AliasError {
    ghost use Rattle.tu_check.specs.declared.refusal.AliasError.TheVariants.{Memory as alias_memory};

    ghost from_gives = { λ _ e. e ≡ alias_memory };

    fn from(_: Memory) -> Self {
        AliasError::Memory
    }
}

/// Why a source is refused: the first group with a fault, at its least place. None of the errors in
/// it is want of memory.
#[derive(Clone, Copy, PartialEq, Eq, Debug, Error)]
pub enum Refusal {
    /// The source has more than 1,048,576 bytes.
    #[error("the source has more than 1048576 bytes")]
    Size,
    /// It is no list of lexemes.
    #[error(transparent)]
    Lexical(LexError),
    /// Its tokens are no program, from the token on that stands on this line.
    #[error("line {0}: a token that fits no program")]
    Syntax(Line),
    /// A name has no meaning.
    #[error(transparent)]
    Scope(ScopeError),
    /// An expression or a declaration has no type.
    #[error(transparent)]
    Types(TypeError),
    /// A subprogram may not do what it does.
    #[error(transparent)]
    Effects(EffectError),
    /// Two names may not stand for one variable.
    #[error(transparent)]
    Overlap(AliasError),
}
