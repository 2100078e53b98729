ghost use Rattle.std.specs.Prelude.{◌≡◌, ◌↔◌, [], ◌∷◌, ◌++◌, IsTrue, OnOk, OnErr, IfOk, length};

use std::alloc::Global;
use std::marker::Model;
use tu_base::Memory;

/// The words of a program, in the order in which they lie in memory. It has no limit but memory.
#[derive(Debug, Drop)]
pub struct Text {
    items: Vec<u32>,
}

impl Model for Text {
    ghost use Rattle.std.specs.Prelude.{List, ℕ};

    ghost Value = { List ℕ };

    ghost view = { λ t. t.items.items };
}

impl Text {
    /// The empty text, which takes no memory.
    pub fn make(alloc: Global) -> Self
        ensures { result ≡ [] }
    {
        Text {
            items: Vec::new(alloc),
        }
    }

    /// A text of these words.
    pub fn from_slice(alloc: Global, items: &[u32]) -> Result<Self, Memory>
        ensures { IfOk result (λ text. text ≡ items.now) }
    {
        let items = Vec::from_slice(alloc, items)?;
        Ok(Text { items })
    }

    /// Appends a word.
    pub fn add(&mut self, item: u32) -> Result<(), Memory>
        ensures added { OnOk result (self.new ≡ self.old ++ item ∷ []) }
        ensures same { OnErr result (self.new ≡ self.old) }
    {
        self.items.push(item)?;
        Ok(())
    }

    /// How many words there are.
    pub fn len(&self) -> usize
        ensures { result ≡ length self.now }
    {
        self.items.len()
    }

    /// Whether there are none.
    pub fn is_empty(&self) -> bool
        ensures { IsTrue result ↔ (self.now ≡ []) }
    {
        self.items.is_empty()
    }

    /// The words.
    pub fn as_slice(&self) -> &[u32]
        ensures { result.now ≡ self.now }
    {
        self.items.as_slice()
    }
}
