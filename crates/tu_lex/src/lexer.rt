// A source as tokens.
ghost use Rattle.std.specs.Prelude.{◌≡◌, ◌+◌, ◌<◌, ◌≤◌, ◌⊎◌, ℕ, Some, None, length, take, drop, IfOk, IfErr, MatchResult};
ghost use Rattle.tu_base.specs.declared.limits.TheConstants.{MOST_SOURCE_BYTES};
ghost use Rattle.tu_token.specs.Lexemes.{line_after, IsLexed};
ghost use Rattle.tu_token.specs.LexFaults.{HasNoFault, IsLexFault};
ghost use Rattle.tu_lex.specs.Reads.{passed, taken, refusal_of, Reads};

use crate::piece::{Piece, front};
use crate::stack::Nest;
use crate::text::has_bad_byte;
use std::alloc::Global;
use tu_base::{Bytes, Line, MOST_TOKENS};
use tu_token::{Class, LexError, Token, Tokens};

// How far a source is read.
#[derive(Drop)]
struct Progress {
    tokens: Tokens,
    nest: Nest,
    place: usize,
    line: Line,
}

fn first(bytes: &[u8], count: usize) -> &[u8]
    requires { count ≤ length bytes.now }
    ensures { result.now ≡ take count bytes.now }
{
    &bytes[..count]
}

fn behind(bytes: &[u8], count: usize) -> &[u8]
    requires { count ≤ length bytes.now }
    ensures { result.now ≡ drop count bytes.now }
{
    &bytes[count..]
}

fn line_after(line: Line, bytes: &[u8]) -> Line
    requires { line + length bytes.now ≤ 4294967295 }
    ensures { result ≡ line_after line bytes.now }
{
    line + bytes.iter().filter(|byte| **byte == b'\n').count() as u32
}

// Goes on behind a separator.
fn pass(progress: &mut Progress, gap: &[u8])
    requires line { progress.old.line + length gap.now ≤ 4294967295 }
    requires place { progress.old.place + length gap.now ≤ MOST_SOURCE_BYTES }
    ensures { progress.new ≡ passed progress.old gap.now }
{
    progress.line = line_after(progress.line, gap);
    progress.place += gap.len();
}

// Goes on behind the lexeme of a token. A text may be bad.
fn take(
    alloc: Global,
    progress: &mut Progress,
    class: Class,
    text: &[u8],
    is_bad: bool,
) -> Result<(), LexError>
    requires place { progress.old.place + length text.now ≤ MOST_SOURCE_BYTES }
    ensures { MatchResult result
        (λ _. (refusal_of progress.old class is_bad ≡ None) × (progress.new ≡ taken progress.old class text.now))
        (λ e. (e ≡ LexError.Memory) ⊎ (refusal_of progress.old class is_bad ≡ Some e)) }
{
    let line = progress.line;
    if progress.tokens.len() == MOST_TOKENS {
        return Err(LexError::TooMany(line));
    }
    if is_bad {
        return Err(LexError::BadByte(line));
    }
    if !progress.nest.enter(class) {
        return Err(LexError::TooDeep(line));
    }
    progress.tokens.add(Token {
        class,
        text: Bytes::from_slice(alloc, text)?,
        start: progress.place as u32,
        length: text.len() as u32,
        line,
    })?;
    progress.place += text.len();
    Ok(())
}

// Goes on behind the next separator or lexeme.
fn step(alloc: Global, bytes: &[u8], progress: &mut Progress) -> Result<(), LexError>
    requires some { progress.old.place < length bytes.now }
    requires short { length bytes.now ≤ MOST_SOURCE_BYTES }
    requires reads { Reads bytes.now progress.old }
    ensures { MatchResult result
        (λ _. Reads bytes.now progress.new × (progress.old.place < progress.new.place))
        (λ e. (e ≡ LexError.Memory) ⊎ IsLexFault bytes.now e) }
{
    let rest = behind(bytes, progress.place);
    match front(rest, progress.line) {
        Err(error) => Err(error),
        Ok(Piece::Gap(length)) => {
            pass(progress, first(rest, length));
            Ok(())
        }
        Ok(Piece::Text(length)) => {
            let text = first(rest, length);
            take(
                alloc,
                progress,
                Class::Text,
                text,
                has_bad_byte(behind(text, 1)),
            )
        }
        Ok(Piece::Lexeme(class, length)) => {
            take(alloc, progress, class, first(rest, length), false)
        }
    }
}

/// The tokens of a source of at most `MOST_SOURCE_BYTES` bytes, or its first lexical fault with its line, or
/// want of memory. It takes memory for the tokens alone.
pub fn lex(alloc: Global, source: &Bytes) -> Result<Tokens, LexError>
    requires { length source.now ≤ MOST_SOURCE_BYTES }
    // The source is these tokens, and has no lexical fault.
    ensures lexed { IfOk result (λ tokens. IsLexed source.now tokens × HasNoFault source.now) }
    // This is the fault at the least place.
    ensures refused { IfErr result (λ error. (error ≡ LexError.Memory) ⊎ IsLexFault source.now error) }
{
    let bytes = source.as_slice();
    let mut progress = Progress {
        tokens: Tokens::make(alloc),
        nest: Nest::new(),
        place: 0,
        line: 1,
    };
    while progress.place < bytes.len() {
        step(alloc, bytes, &mut progress)?;
    }
    progress.tokens.end_at(progress.place as u32, progress.line);
    Ok(progress.tokens)
}
