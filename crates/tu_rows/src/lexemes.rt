// The lexer: every class of token, every lexical fault with its line, and each limit.

use crate::rows::{Text, rows_hold};
use std::alloc::Global;
use std::test::Fail;
use tu_base::{Bytes, Memory};
use tu_lex::lex;
use tu_token::{Class, LexError, Tokens};

// In bytes, and no source is longer.
const LONGEST: usize = 1_048_576;

// One lexeme of each class but the reserved words.
const LEXEMES: &[(&str, Class)] = &[
    ("x_1", Class::Name),
    ("007", Class::Number),
    ("\"a\\n\"", Class::Text),
    (":=", Class::SignAssign),
    ("=>", Class::SignImplies),
    ("<=", Class::SignLessOrEqual),
    (">=", Class::SignGreaterOrEqual),
    ("..", Class::SignRange),
    ("**", Class::SignPower),
    ("not=", Class::SignNotEqual),
    ("+", Class::SignPlus),
    ("-", Class::SignMinus),
    ("*", Class::SignStar),
    ("<", Class::SignLess),
    (">", Class::SignGreater),
    ("=", Class::SignEqual),
    ("(", Class::SignLeftBracket),
    (")", Class::SignRightBracket),
    (",", Class::SignComma),
    (":", Class::SignColon),
    (";", Class::SignSemicolon),
    (".", Class::SignDot),
];

// Each has a class of its own, with its name behind `Word`.
const WORDS: &[&str] = &[
    "all and array assert begin bind body boolean case close collection const decreasing div else",
    "elsif end enum exit export false for forward free function get handler if import in init int",
    "invariant label loop mod module new nil not of opaque open or pointer post pre procedure put quit",
    "record result return set string tag then to true type union var when",
];

// A front part, a piece so many times and a last part, and how many tokens that is.
type Source = (Text, Text, usize, Text, Result<u32, LexError>);

const SOURCES: &[Source] = &[
    ("", "", 0, "", Ok(0)),
    ("put 1 /* a % b */ + 2;", "", 0, "", Ok(5)),
    ("% a /* b\nc", "", 0, "", Ok(1)),
    ("/* a /* b */ c", "", 0, "", Ok(1)),
    ("not= not == notx=", "", 0, "", Ok(6)),
    ("x:==1..2***3=>4", "", 0, "", Ok(11)),
    ("1.x", "", 0, "", Ok(3)),
    ("put _", "", 0, "", Err(LexError::BadByte(1))),
    ("put 1\n\n/ 2", "", 0, "", Err(LexError::BadByte(3))),
    ("\n\"a\x07b\"", "", 0, "", Err(LexError::BadByte(2))),
    ("\"\r\"", "", 0, "", Err(LexError::BadByte(1))),
    ("\"a\\q\"", "", 0, "", Err(LexError::BadByte(1))),
    ("2147483647", "", 0, "", Ok(1)),
    ("\n2147483648", "", 0, "", Err(LexError::BadNumber(2))),
    ("1a", "", 0, "", Err(LexError::BadNumber(1))),
    ("1_", "", 0, "", Err(LexError::BadNumber(1))),
    ("1.5", "", 0, "", Err(LexError::BadNumber(1))),
    ("put \"a", "", 0, "", Err(LexError::OpenText(1))),
    ("\n\"a\nb\"", "", 0, "", Err(LexError::OpenText(2))),
    ("\"a\\\n\"", "", 0, "", Err(LexError::OpenText(1))),
    ("\"\x07", "", 0, "", Err(LexError::OpenText(1))),
    ("\n/*/", "", 0, "", Err(LexError::OpenComment(2))),
    ("/* a\n\n*", "", 0, "", Err(LexError::OpenComment(1))),
    ("\"", "a", 255, "\"", Ok(1)),
    ("\n\"", "a", 256, "\"", Err(LexError::LongText(2))),
    ("\"", "\\n", 255, "\"", Ok(1)),
    ("\"", "\\n", 256, "\"", Err(LexError::LongText(1))),
    ("\"\x07", "a", 255, "\"", Err(LexError::LongText(1))),
    ("", "a", 50, "", Ok(1)),
    ("\n", "a", 51, "", Err(LexError::LongName(2))),
    ("", ";", 65_536, "", Ok(65_536)),
    ("", ";\n", 65_537, "", Err(LexError::TooMany(65_537))),
    ("", ";", 65_536, "\"\x07\"", Err(LexError::TooMany(1))),
    ("", ";", 65_536, "1a", Err(LexError::BadNumber(1))),
    ("", "abcdefghijklmno ", 65_536, "", Ok(65_536)),
    ("", " ", LONGEST, "", Ok(0)),
    ("", "(", 32, "1", Ok(33)),
    ("", "(\n", 33, "1", Err(LexError::TooDeep(33))),
    ("", "if end if ", 100, "", Ok(300)),
    ("", "begin end begin ", 31, "", Ok(93)),
    ("", "begin end begin ", 33, "", Err(LexError::TooDeep(1))),
    ("", "forward procedure ", 100, "", Ok(200)),
    ("", "body procedure ", 33, "", Err(LexError::TooDeep(1))),
    ("", "( end ", 32, "", Ok(64)),
    ("", "handler ", 32, "", Ok(32)),
    ("", "handler ", 33, "", Err(LexError::TooDeep(1))),
    ("", "handler end handler ", 33, "", Ok(99)),
];

// All bytes from 128 on may stand in a text.
const HIGH_BYTES: &[u8] = b"\t\"\x80\xff~ \"";

/// A front part, a piece so many times, and a last part.
pub fn repeated(
    alloc: Global,
    front: &str,
    piece: &str,
    count: usize,
    last: &str,
) -> Result<Bytes, Memory> {
    let mut source = Bytes::from_slice(alloc, front.as_bytes())?;
    for _ in 0..count {
        source.extend(piece.as_bytes())?;
    }
    source.extend(last.as_bytes())?;
    Ok(source)
}

/// The tokens of a source that is not too long for the lexer.
pub fn tokens_of(alloc: Global, source: &[u8]) -> Result<Tokens, LexError> {
    if source.len() > LONGEST {
        return Err(LexError::Memory);
    }
    let source = Bytes::from_slice(alloc, source)?;
    lex(alloc, &source)
}

// The class of a lexeme that is a whole source.
fn class_of(alloc: Global, lexeme: &str) -> Result<Option<Class>, LexError> {
    let tokens = tokens_of(alloc, lexeme.as_bytes())?;
    Ok(match tokens.as_slice() {
        [token] => Some(token.class),
        _ => None,
    })
}

fn is_of_class(alloc: Global, row: &(&str, Class)) -> Result<bool, LexError> {
    Ok(class_of(alloc, row.0)? == Some(row.1))
}

// Whether reserved words are of the classes with their names.
fn are_of_their_classes(alloc: Global, words: &Text) -> Result<bool, LexError> {
    for word in words.split(' ') {
        let class = class_of(alloc, word)?;
        let Ok(name) = format!(in alloc; "{class:?}") else {
            return Err(LexError::Memory);
        };
        let name = name.strip_prefix("Some(Word");
        let name = name.and_then(|name| name.strip_suffix(")"));
        if !name.is_some_and(|name| name.eq_ignore_ascii_case(word)) {
            return Ok(false);
        }
    }
    Ok(true)
}

#[test]
fn lexemes_have_their_classes(rt: HostRuntime) {
    rows_hold(&rt, rt.alloc(), LEXEMES, is_of_class);
    rows_hold(&rt, rt.alloc(), WORDS, are_of_their_classes);
}

fn count_of(alloc: Global, source: &[u8]) -> Result<u32, LexError> {
    let tokens = tokens_of(alloc, source)?;
    Ok(tokens.len())
}

fn has_count(alloc: Global, row: &Source) -> Result<bool, Memory> {
    let (front, piece, count, last, wanted) = *row;
    let source = repeated(alloc, front, piece, count, last)?;
    Ok(count_of(alloc, source.as_slice()) == wanted)
}

#[test]
fn sources_are_tokens_or_faults(rt: HostRuntime) -> Result<(), Fail> {
    rows_hold(&rt, rt.alloc(), SOURCES, has_count);
    assert!(rt; count_of(rt.alloc(), HIGH_BYTES)? == 1);
    Ok(())
}
