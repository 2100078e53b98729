ghost use Rattle.std.specs.Prelude.{◌≡◌, ◌-◌, ◌≤◌, length, IfErr, IfOk};
ghost use Rattle.tu_token.specs.declared.fault.ParseError.TheVariants.{Unexpected};
ghost use Rattle.tu_token.specs.Rules.{r-program};
ghost use Rattle.tu_token.specs.Syntax.{Of};
ghost use Rattle.tu_parse.specs.Parsing.{line_at, Finds, IsTreeOf, IsUnexpected};

use crate::programs::program;
use std::alloc::Global;
use tu_base::Line;
use tu_reader::{Cursor, Stop};
use tu_tree::{ParseError, Tokens, Tree};

// The line of a token, or of the end.
fn line_at(tokens: &Tokens, token: u32) -> Line
    ensures { result ≡ line_at tokens.now token }
{
    match tokens.as_slice().get(token as usize) {
        Some(next) => next.line,
        None => tokens.end_line(),
    }
}

// The token that is next is none that is expected.
fn unexpected(tokens: &Tokens, cursor: &Cursor<'_>) -> ParseError
    requires { length cursor.now.tokens ≤ length tokens.now.items }
    ensures { let k = length tokens.now.items - length cursor.now.tokens in result ≡ Unexpected k (line_at tokens.now k) }
{
    let token = tokens.len() - cursor.left() as u32;
    ParseError::Unexpected {
        token,
        line: line_at(tokens, token),
    }
}

/// The tree that spells the tokens and is placed by them. `Unexpected` comes exactly where there is none,
/// with the least token up to which no program begins, counted from 0, and its line; `Memory` where memory
/// runs out.
pub fn parse(alloc: Global, tokens: &Tokens) -> Result<Tree, ParseError>
    ensures parsed { IfOk result (λ tree. IsTreeOf tokens.now tree) }
    ensures found { (tree : Of r-program) → IsTreeOf tokens.now tree → Finds tree result }
    ensures refused { IfErr result (λ error. IsUnexpected tokens.now error) }
{
    let count = tokens.len();
    // Above the weight of all tokens.
    let depth = 64 * count + 40;
    let mut cursor = Cursor::new(tokens);
    match program(alloc, &mut cursor, depth) {
        Ok(tree) => {
            let left = cursor.left();
            if left == 0 {
                Ok(tree)
            } else {
                Err(unexpected(tokens, &cursor))
            }
        }
        Err(Stop::Unexpected) => Err(unexpected(tokens, &cursor)),
        Err(Stop::Memory) => Err(ParseError::Memory),
    }
}
