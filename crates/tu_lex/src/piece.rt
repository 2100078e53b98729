// What stands in front of bytes.
ghost use Rattle.std.specs.Prelude.{◌≡◌, false};
ghost use Rattle.tu_token.specs.Words.{single};
ghost use Rattle.tu_lex.specs.Front.{comment_front, text_by, number_front, word_front, single_front, sign_front, front};
ghost use Rattle.tu_token.specs.Scans.{text_scan, close_of};

use crate::number::{digits_length, is_bad_number};
use crate::separator::{comment_end, line_length, white_length};
use crate::sign::{double, single};
use crate::text::{contents_length, text_end};
use crate::word::{begins_not_equal, name_length};
use tu_base::{Line, MOST_NAME_BYTES, MOST_TEXT_BYTES};
use tu_token::{Class, LexError, word_class};

/// A separator or a lexeme, with its number of bytes.
#[derive(Clone, Copy, Debug, PartialEq, Eq)]
pub enum Piece {
    /// White space or a comment.
    Gap(usize),
    /// A text by its ends; its bytes are not yet looked at.
    Text(usize),
    /// A lexeme other than a text.
    Lexeme(Class, usize),
}

fn comment_front(rest: &[u8], line: Line) -> Result<Piece, LexError>
    ensures { result ≡ comment_front line rest.now }
{
    match rest {
        [b'*', body @ ..] => match comment_end(body) {
            None => Err(LexError::OpenComment(line)),
            Some(length) => Ok(Piece::Gap(length + 2)),
        },
        _ => Err(LexError::BadByte(line)),
    }
}

fn text_front(body: &[u8], line: Line) -> Result<Piece, LexError>
    ensures { result ≡ text_by line (close_of text_scan false body.now) body.now }
{
    match text_end(body) {
        None => Err(LexError::OpenText(line)),
        Some(length) => {
            if contents_length(&body[..length - 1]) > MOST_TEXT_BYTES as usize {
                Err(LexError::LongText(line))
            } else {
                Ok(Piece::Text(length + 1))
            }
        }
    }
}

fn number_front(bytes: &[u8], line: Line) -> Result<Piece, LexError>
    ensures { result ≡ number_front line bytes.now }
{
    if is_bad_number(bytes) {
        Err(LexError::BadNumber(line))
    } else {
        Ok(Piece::Lexeme(Class::Number, digits_length(bytes)))
    }
}

fn word_front(bytes: &[u8], line: Line) -> Result<Piece, LexError>
    ensures { result ≡ word_front line bytes.now }
{
    let length = name_length(bytes);
    if length > MOST_NAME_BYTES as usize {
        Err(LexError::LongName(line))
    } else if begins_not_equal(bytes) {
        Ok(Piece::Lexeme(Class::SignNotEqual, 4))
    } else {
        Ok(Piece::Lexeme(word_class(&bytes[..length]), length))
    }
}

fn single_front(byte: u8, line: Line) -> Result<Piece, LexError>
    ensures { result ≡ single_front line (single byte) }
{
    match single(byte) {
        None => Err(LexError::BadByte(line)),
        Some(class) => Ok(Piece::Lexeme(class, 1)),
    }
}

fn sign_front(byte: u8, rest: &[u8], line: Line) -> Result<Piece, LexError>
    ensures { result ≡ sign_front line byte rest.now }
{
    match rest {
        [] => single_front(byte, line),
        [next, ..] => match double(byte, *next) {
            None => single_front(byte, line),
            Some(class) => Ok(Piece::Lexeme(class, 2)),
        },
    }
}

/// The longest piece in front, or the first fault of what begins here, on this line.
pub fn front(bytes: &[u8], line: Line) -> Result<Piece, LexError>
    ensures { result ≡ front line bytes.now }
{
    let [byte, rest @ ..] = bytes else {
        return Ok(Piece::Gap(0));
    };
    match *byte {
        b'%' => Ok(Piece::Gap(line_length(bytes))),
        b'/' => comment_front(rest, line),
        b'"' => text_front(rest, line),
        b'0'..=b'9' => number_front(bytes, line),
        b'a'..=b'z' | b'A'..=b'Z' => word_front(bytes, line),
        b'\t' | b'\n' | b'\r' | b' ' => Ok(Piece::Gap(white_length(bytes))),
        _ => sign_front(*byte, rest, line),
    }
}
