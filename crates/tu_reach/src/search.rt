ghost use Rattle.std.specs.Prelude.{◌≡◌, ◌<◌, length, IfOk, OnOk};
ghost use Rattle.std.specs.List.{All};
ghost use Rattle.tu_reach.specs.Marks.{is_marked, IsFound};

use crate::Rows;
use crate::marking::Marking;
use std::alloc::Global;
use std::marker::Model;
use tu_base::Memory;

/// A search for what leads to one of some texts. It takes the time of the calls that it follows,
/// however many texts there are, and is used again for the next ones.
#[derive(Drop)]
pub struct Search {
    marking: Marking,
}

impl Model for Search {
    ghost use Rattle.std.specs.Prelude.{List, Bool};
    ghost use Rattle.tu_reach.specs.Marks.{IsListed};

    ghost Value = { List Bool };

    ghost view = { λ s. s.marking.marks.items };

    ghost invariant = { λ s. IsListed s.marking.marks.items s.marking.found.items };
}

impl Search {
    /// For so many texts.
    pub fn new(alloc: Global, texts: usize) -> Result<Self, Memory>
        ensures { IfOk result (λ search. length search ≡ texts) }
    {
        let marking = Marking::new(alloc, texts)?;
        Ok(Search { marking })
    }

    /// Finds just the texts that lead by calls to one of these.
    pub fn find(&mut self, calls: &Rows, texts: &[usize]) -> Result<(), Memory>
        requires calls { calls.now.texts ≡ length self.old }
        requires texts { All (λ a. a < length self.old) texts.now }
        ensures length { length self.new ≡ length self.old }
        ensures found { OnOk result (IsFound calls.now.rows texts.now self.new) }
    {
        self.marking.find(calls, texts)
    }

    /// Whether a text was found.
    pub fn is_found(&self, text: usize) -> bool
        ensures { result ≡ is_marked self.now text }
    {
        match self.marking.marks.get(text) {
            None => false,
            Some(mark) => *mark,
        }
    }
}
