ghost use Rattle.std.specs.Prelude.{◌≡◌, ◌<◌, ◌≤◌, ◌↔◌, [], ◌∷◌, ◌++◌, Some, IsTrue, OnOk, OnErr, length};
ghost use Rattle.tu_base.specs.declared.limits.TheConstants.{MOST_TOKENS};
ghost use Rattle.tu_token.specs.TokenList.{text_at};

use crate::Class;
use std::alloc::Global;
use std::marker::Model;
use tu_base::{Bytes, Line, Memory};

/// A lexeme of a source.
#[derive(Drop)]
pub struct Token {
    /// What it is.
    pub class: Class,
    /// Its bytes, as they stand in the source.
    pub text: Bytes,
    /// The place of its first byte in the source, counted from 0.
    pub start: u32,
    /// How many bytes of the source it is.
    pub length: u32,
    /// The line of its first byte, counted from 1.
    pub line: Line,
}

/// The tokens of a source, at most 65,536, and where the source ends.
#[derive(Drop)]
pub struct Tokens {
    items: Vec<Token>,
    end_start: u32,
    end_line: Line,
}

impl Model for Tokens {
    ghost use Rattle.std.specs.Prelude.{◌≤◌, length};
    ghost use Rattle.tu_base.specs.declared.limits.TheConstants.{MOST_TOKENS};
    ghost use Rattle.tu_token.specs.TokenList.{TokenList};

    ghost Value = { TokenList };

    ghost view = { λ t. record { items = t.items.items; start = t.end_start; line = t.end_line } };

    ghost invariant = { λ t. length t.items.items ≤ MOST_TOKENS };
}

impl Tokens {
    /// No tokens, which takes no memory, with the end at place 0 of line 1.
    pub fn make(alloc: Global) -> Self
        ensures { result ≡ record { items = []; start = 0; line = 1 } }
    {
        Tokens {
            items: Vec::new(alloc),
            end_start: 0,
            end_line: 1,
        }
    }

    /// Appends a token.
    pub fn add(&mut self, token: Token) -> Result<(), Memory>
        requires { length self.old.items < MOST_TOKENS }
        ensures added { OnOk result (self.new ≡ record self.old { items = self.old.items ++ token ∷ [] }) }
        ensures same { OnErr result (self.new ≡ self.old) }
    {
        self.items.push(token)?;
        Ok(())
    }

    /// Says where the source ends: its length in bytes, and the line there.
    pub fn end_at(&mut self, start: u32, line: Line)
        ensures { self.new ≡ record self.old { start = start; line = line } }
    {
        self.end_start = start;
        self.end_line = line;
    }

    /// How many tokens there are.
    pub fn len(&self) -> u32
        ensures number { result ≡ length self.now.items }
        ensures few { result ≤ MOST_TOKENS }
    {
        self.items.len() as u32
    }

    /// Whether there are none.
    pub fn is_empty(&self) -> bool
        ensures { IsTrue result ↔ (self.now.items ≡ []) }
    {
        self.items.is_empty()
    }

    /// The tokens.
    pub fn as_slice(&self) -> &[Token]
        ensures { result.now ≡ self.now.items }
    {
        self.items.as_slice()
    }

    /// The bytes of token k, counted from 0.
    pub fn text(&self, k: u32) -> &[u8]
        requires { k < length self.now.items }
        ensures { text_at self.now.items k ≡ Some result.now }
    {
        let token = &self.items[k as usize];
        token.text.as_slice()
    }

    /// The length of the source in bytes, at which its end token begins.
    pub fn end_start(&self) -> u32
        ensures { result ≡ self.now.start }
    {
        self.end_start
    }

    /// The line of the end token, counted from 1.
    pub fn end_line(&self) -> Line
        ensures { result ≡ self.now.line }
    {
        self.end_line
    }
}
