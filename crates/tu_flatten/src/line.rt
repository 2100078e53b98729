// The tokens of a tree, on one line.
ghost use Rattle.std.specs.Prelude.{◌≡◌, ◌+◌, ◌<◌, ◌≤◌, ◌^◌, IfOk, length, map, min, vec_len};
ghost use Rattle.grammar.specs.Description.{print};
ghost use Rattle.grammar.specs.Tree.{erase};
ghost use Rattle.tu_base.specs.declared.limits.TheConstants.{MOST_TOKENS};
ghost use Rattle.tu_token.specs.ClassNumbers.{lexeme_of as token_lexeme, lexemes, number};
ghost use Rattle.tu_token.specs.Syntax.{Spells};
ghost use Rattle.tu_flatten.specs.OneLine.{IsOnOneLine, StandsAt};
ghost use Rattle.tu_flatten_parts.specs.Pieces.{lexeme_of};
ghost use Rattle.tu_token.specs.Spellings.{bytes_of, text_of};

use crate::programs::write_tree;
use std::alloc::Global;
use tu_base::{Bytes, Memory};
use tu_flatten_parts::{Piece, Pieces};
use tu_tree::{Class, Token, Tokens, Tree, spelling};

fn class_of(piece: &Piece) -> Class
    ensures { number result ≡ (lexeme_of piece.now).0 }
{
    match piece {
        Piece::Name(_) => Class::Name,
        Piece::Number(_) => Class::Number,
        Piece::Text(_) => Class::Text,
        Piece::Word(class) => *class,
    }
}

fn text_of(alloc: Global, piece: Piece) -> Result<Bytes, Memory>
    ensures { IfOk result (λ text. text ≡ text_of (lexeme_of piece)) }
{
    match piece {
        Piece::Name(text) | Piece::Number(text) | Piece::Text(text) => Ok(text),
        Piece::Word(class) => Bytes::from_slice(alloc, spelling(class)),
    }
}

// The token of a piece at a place of line 1.
fn token_at(alloc: Global, place: u32, piece: Piece) -> Result<Token, Memory>
    requires { place + length (text_of (lexeme_of piece)) < 2 ^ 32 }
    ensures place { IfOk result (λ token. StandsAt place token) }
    ensures lexeme { IfOk result (λ token. token_lexeme token ≡ lexeme_of piece) }
    ensures text { IfOk result (λ token. token.text ≡ text_of (lexeme_of piece)) }
{
    let class = class_of(&piece);
    let text = text_of(alloc, piece)?;
    let length = text.len() as u32;
    Ok(Token {
        class,
        text,
        start: place,
        length,
        line: 1,
    })
}

// The tokens of pieces on one line.
fn lay_out(alloc: Global, pieces: Vec<Piece>) -> Result<Tokens, Memory>
    requires few { vec_len pieces ≤ MOST_TOKENS }
    requires short { bytes_of (map lexeme_of pieces.items) ≤ 2 ^ 31 }
    ensures lexemes { IfOk result (λ tokens. lexemes tokens.items ≡ map lexeme_of pieces.items) }
    ensures places { IfOk result (λ tokens. IsOnOneLine tokens) }
{
    let mut tokens = Tokens::make(alloc);
    let mut place = 0u32;
    for piece in pieces {
        let token = token_at(alloc, place, piece)?;
        place += token.length + 1;
        tokens.add(token)?;
    }
    tokens.end_at(place.saturating_sub(1), 1);
    Ok(tokens)
}

/// The tokens that a tree spells, which stand on one line with one blank between two of them, or
/// want of memory.
pub fn flatten(alloc: Global, tree: &Tree) -> Result<Tokens, Memory>
    requires few { length (print (erase tree.now)) ≤ MOST_TOKENS }
    requires short { bytes_of (print (erase tree.now)) ≤ 2 ^ 31 }
    ensures spells { IfOk result (λ tokens. Spells tree.now tokens) }
    ensures places { IfOk result (λ tokens. IsOnOneLine tokens) }
{
    let mut pieces = Pieces::make(alloc);
    write_tree(tree, &mut pieces)?;
    let tokens = lay_out(alloc, pieces.into_vec())?;
    Ok(tokens)
}

// How many bytes a token has in its spelling.
fn spelled_length(token: &Token) -> u64
    ensures { result ≡ length (text_of (token_lexeme token.now)) }
{
    match token.class {
        Class::Name | Class::Number | Class::Text => token.text.len() as u64,
        class => spelling(class).len() as u64,
    }
}

/// How many bytes the texts of tokens have together, each sign and word in its own spelling, up to
/// the largest number.
pub fn spelled_bytes(tokens: &Tokens) -> u64
    ensures { result ≡ min (bytes_of (lexemes tokens.now.items)) 18446744073709551615 }
{
    let mut total = 0u64;
    for token in tokens.as_slice() {
        total = total.saturating_add(spelled_length(token));
    }
    total
}
