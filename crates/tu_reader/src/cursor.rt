ghost use Rattle.std.specs.Prelude.{◌≡◌, ℕ, ◌+◌, ◌*◌, ◌<◌, ◌≤◌, true, false, cond, IfOk, length};
ghost use Rattle.grammar.specs.Tree.{n-sequence, n-token};
ghost use Rattle.tu_token.specs.ClassNumbers.{number, keeps_text, end_of};
ghost use Rattle.tu_token.specs.Rules.{◌⨟◌, t};
ghost use Rattle.tu_token.specs.declared.class.Class.TheVariants.{WordEnd};
ghost use Rattle.tu_expr.specs.Leaves.{mark, spot_mark, leaf_view};
ghost use Rattle.tu_reader.specs.Ahead.{weight, class_of};
ghost use Rattle.tu_reader.specs.Reads.{Reads, Takes, Sees, Eats, Marks, IsSpot};
ghost use Rattle.tu_reader.specs.Taken.{TakesNext};

use crate::Stop;
use std::alloc::Global;
use std::marker::Model;
use tu_base::{Bytes, Line};
use tu_expr::{At, Leaf, Spot};
use tu_token::{Class, Token, Tokens};

/// The tokens that are left, the end behind them, and the number of the next node.
#[derive(Drop)]
pub struct Cursor<'a> {
    tokens: &'a [Token],
    end_start: u32,
    end_line: Line,
    number: u32,
}

impl<'a> Model for Cursor<'a> {
    ghost use Rattle.tu_reader.specs.Ahead.{Ahead};

    ghost Value = { Ahead };

    ghost view = { λ c. record { tokens = c.tokens.now; end = record { start = c.end_start; line = c.end_line }; number = c.number } };
}

impl<'a> Cursor<'a> {
    /// At the first of the tokens. The first node has number 0.
    pub fn new(tokens: &'a Tokens) -> Cursor<'a>
        ensures { result ≡ record { tokens = tokens.now.items; end = end_of tokens.now; number = 0 } }
    {
        Cursor {
            tokens: tokens.as_slice(),
            end_start: tokens.end_start(),
            end_line: tokens.end_line(),
            number: 0,
        }
    }

    /// How many tokens are left.
    pub fn left(&self) -> usize
        ensures { result ≡ length self.now.tokens }
    {
        self.tokens.len()
    }

    /// The class of the next token.
    pub fn class(&self) -> Option<Class>
        ensures { result ≡ class_of self.now.tokens }
    {
        match self.tokens.first() {
            Some(token) => Some(token.class),
            None => None,
        }
    }

    // The next token, where it is of the class.
    #[tactic(auto, using(crate::proofs::Tokens::taking))]
    fn take(&mut self, class: Class) -> Option<&'a Token>
        ensures { TakesNext class self.old result self.new }
    {
        match self.tokens.split_first() {
            None => None,
            Some((first, rest)) => {
                if first.class == class {
                    self.tokens = rest;
                    Some(first)
                } else {
                    None
                }
            }
        }
    }

    /// Whether the next token is of the class.
    pub fn sees(&self, class: Class) -> bool
        ensures { Sees class self.now result }
    {
        match self.tokens.first() {
            Some(token) => token.class == class,
            None => false,
        }
    }

    /// Leaves the next token behind, which is of the class.
    pub fn skip(&mut self, class: Class)
        requires kind { keeps_text (number class) ≡ false }
        requires seen { Sees class self.old true }
        ensures takes { Takes (t class) self.old n-token self.new }
        ensures less { weight self.new + 64 ≤ weight self.old }
    {
        if let Some((_, rest)) = self.tokens.split_first() {
            self.tokens = rest;
        }
    }

    /// Takes a token of the class, where it is next.
    pub fn eat(&mut self, class: Class) -> bool
        requires { keeps_text (number class) ≡ false }
        ensures eats { Eats class result self.old self.new }
        ensures less { weight self.new + cond result 64 0 ≤ weight self.old }
    {
        match self.take(class) {
            Some(_) => true,
            None => false,
        }
    }

    /// Takes a token of the class.
    pub fn expect(&mut self, class: Class) -> Result<(), Stop>
        requires { keeps_text (number class) ≡ false }
        ensures reads { Reads (t class) (λ _. n-token) result self.old self.new }
        ensures less { IfOk result (λ _. weight self.new + 64 ≤ weight self.old) }
    {
        match self.take(class) {
            Some(_) => Ok(()),
            None => Err(Stop::Unexpected),
        }
    }

    /// Takes `end` and a word of the class.
    pub fn end(&mut self, class: Class) -> Result<(), Stop>
        requires { keeps_text (number class) ≡ false }
        ensures reads { Reads (t WordEnd ⨟ t class) (λ _. n-sequence n-token n-token) result self.old self.new }
        ensures less { IfOk result (λ _. weight self.new + 128 ≤ weight self.old) }
    {
        self.expect(Class::WordEnd)?;
        self.expect(class)?;
        Ok(())
    }

    /// Takes a name, a number or a text.
    pub fn leaf(&mut self, alloc: Global, class: Class) -> Result<Leaf, Stop>
        requires { keeps_text (number class) ≡ true }
        ensures reads { Reads (t class) (leaf_view class) result self.old self.new }
        ensures less { IfOk result (λ _. weight self.new + 64 ≤ weight self.old) }
    {
        match self.take(class) {
            Some(token) => Ok(Leaf {
                text: Bytes::from_slice(alloc, token.text.as_slice())?,
                start: token.start,
                line: token.line,
            }),
            None => Err(Stop::Unexpected),
        }
    }

    /// The place of the next token, or of the end.
    pub fn spot(&self) -> Spot
        ensures { IsSpot (spot_mark result) self.now }
    {
        match self.tokens.first() {
            Some(token) => Spot {
                start: token.start,
                line: token.line,
            },
            None => Spot {
                start: self.end_start,
                line: self.end_line,
            },
        }
    }

    /// The mark of a node that begins with the next token.
    pub fn mark(&mut self) -> At
        requires { self.old.number < 4294967295 }
        ensures marks { Marks (mark result) self.old self.new }
        ensures more { weight self.new ≡ weight self.old + 1 }
    {
        let number = self.number;
        let spot = self.spot();
        self.number = number + 1;
        At {
            number,
            start: spot.start,
            line: spot.line,
        }
    }

    /// Goes on with another number for the next node.
    pub fn renumber(&mut self, number: u32)
        ensures { self.new ≡ record self.old { number = number } }
    {
        self.number = number;
    }
}
