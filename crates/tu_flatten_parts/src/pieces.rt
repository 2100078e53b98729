// Lexemes in the order of a text.
ghost use Rattle.std.specs.Prelude.{◌≡◌, [], ◌∷◌, ◌++◌, IfOk, map};
ghost use Rattle.tu_expr.specs.Leaves.{leaf_view};
ghost use Rattle.tu_tree.specs.Parts.{flag};
ghost use Rattle.tu_flatten_parts.specs.Pieces.{lexeme_of};
ghost use Rattle.tu_flatten_parts.specs.Writes.{Writes, Separates, ended, word};

use std::alloc::Global;
use std::marker::Model;
use tu_base::{Bytes, Memory};
use tu_tree::{Class, Leaf};

/// A lexeme. A name, a number or a text has its text with it.
#[derive(Drop)]
pub enum Piece {
    Name(Bytes),
    Number(Bytes),
    Text(Bytes),
    Word(Class),
}

/// Lexemes. They have no limit but memory.
#[derive(Drop)]
pub struct Pieces {
    alloc: Global,
    items: Vec<Piece>,
}

impl Model for Pieces {
    ghost use Rattle.std.specs.Prelude.{List, map};
    ghost use Rattle.grammar.specs.Description.{Lexeme};
    ghost use Rattle.tu_flatten_parts.specs.Pieces.{lexeme_of};

    ghost Value = { List Lexeme };

    ghost view = { λ s. map lexeme_of s.items.items };
}

impl Pieces {
    /// None, which takes no memory.
    pub fn make(alloc: Global) -> Self
        ensures { result ≡ [] }
    {
        Pieces {
            alloc,
            items: Vec::new(alloc),
        }
    }

    fn push(&mut self, piece: Piece) -> Result<(), Memory>
        ensures { IfOk result (λ _. self.new ≡ self.old ++ lexeme_of piece ∷ []) }
    {
        self.items.push(piece)?;
        Ok(())
    }

    /// Adds a sign or word.
    pub fn word(&mut self, class: Class) -> Result<(), Memory>
        ensures { IfOk result (λ _. Writes (word class) self.old self.new) }
    {
        self.push(Piece::Word(class))?;
        Ok(())
    }

    /// Adds a sign or word where it is there.
    pub fn flag(&mut self, class: Class, is_there: bool) -> Result<(), Memory>
        ensures { IfOk result (λ _. Writes (flag class is_there) self.old self.new) }
    {
        if is_there {
            self.word(class)?;
        }
        Ok(())
    }

    /// Adds `end` and a word.
    pub fn end(&mut self, class: Class) -> Result<(), Memory>
        ensures { IfOk result (λ _. Writes (ended class) self.old self.new) }
    {
        self.word(Class::WordEnd)?;
        self.word(class)?;
        Ok(())
    }

    /// Adds a name.
    pub fn name(&mut self, leaf: &Leaf) -> Result<(), Memory>
        ensures { IfOk result (λ _. Writes (leaf_view Class.Name leaf.now) self.old self.new) }
    {
        let text = Bytes::from_slice(self.alloc, leaf.text.as_slice())?;
        self.push(Piece::Name(text))?;
        Ok(())
    }

    /// Adds a number.
    pub fn number(&mut self, leaf: &Leaf) -> Result<(), Memory>
        ensures { IfOk result (λ _. Writes (leaf_view Class.Number leaf.now) self.old self.new) }
    {
        let text = Bytes::from_slice(self.alloc, leaf.text.as_slice())?;
        self.push(Piece::Number(text))?;
        Ok(())
    }

    /// Adds a text.
    pub fn text(&mut self, leaf: &Leaf) -> Result<(), Memory>
        ensures { IfOk result (λ _. Writes (leaf_view Class.Text leaf.now) self.old self.new) }
    {
        let text = Bytes::from_slice(self.alloc, leaf.text.as_slice())?;
        self.push(Piece::Text(text))?;
        Ok(())
    }

    /// Adds a comma before each part but that at place 0.
    pub fn separate(&mut self, place: usize) -> Result<(), Memory>
        ensures { IfOk result (λ _. Separates place self.old self.new) }
    {
        if place != 0 {
            self.word(Class::SignComma)?;
        }
        Ok(())
    }

    /// The lexemes one by one.
    pub fn into_vec(self) -> Vec<Piece>
        ensures { map lexeme_of result.items ≡ self }
    {
        self.items
    }
}
