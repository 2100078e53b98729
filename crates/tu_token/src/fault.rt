ghost use Rattle.std.specs.Prelude.{◌≡◌};

use thiserror::Error;
use tu_base::{Line, Memory};

/// Why a source is no list of lexemes.
#[derive(Clone, Copy, PartialEq, Eq, Debug, Error)]
pub enum LexError {
    /// A byte begins no lexeme or separator or may not stand in a text, or an escape is unknown.
    #[error("line {0}: a byte or an escape that may not stand here")]
    BadByte(Line),
    /// A number is above 2147483647, or a name or a fraction follows directly.
    #[error("line {0}: a number that is too large or goes on as no number does")]
    BadNumber(Line),
    /// A text does not end on its line.
    #[error("line {0}: a text without its closing quote")]
    OpenText(Line),
    /// A text has more than 255 bytes.
    #[error("line {0}: a text of more than 255 bytes")]
    LongText(Line),
    /// A comment does not end.
    #[error("line {0}: a comment without its end")]
    OpenComment(Line),
    /// A name has more than 50 bytes.
    #[error("line {0}: a name of more than 50 bytes")]
    LongName(Line),
    /// There are more than 65,536 tokens.
    #[error("line {0}: more than 65536 tokens")]
    TooMany(Line),
    /// More than 32 constructs are open.
    #[error("line {0}: more than 32 constructs are open")]
    TooDeep(Line),
    /// Want of memory.
    #[error("out of memory")]
    Memory,
}

impl From<Memory> for LexError {
    ghost use Rattle.tu_token.specs.declared.fault.LexError.TheVariants.{Memory as lex_memory};

    ghost from_gives = { λ _ e. e ≡ lex_memory };

    fn from(_: Memory) -> Self {
        LexError::Memory
    }
}

/// Why tokens are no program.
#[derive(Clone, Copy, PartialEq, Eq, Debug, Error)]
pub enum ParseError {
    /// No program begins with the tokens up to this one, counted from 0; its line is given too.
    #[error("line {line}: a token that fits no program")]
    Unexpected { token: u32, line: Line },
    /// Want of memory.
    #[error("out of memory")]
    Memory,
}

impl From<Memory> for ParseError {
    ghost use Rattle.tu_token.specs.declared.fault.ParseError.TheVariants.{Memory as parse_memory};

    ghost from_gives = { λ _ e. e ≡ parse_memory };

    fn from(_: Memory) -> Self {
        ParseError::Memory
    }
}
