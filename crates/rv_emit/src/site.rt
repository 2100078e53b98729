// Where things lie in a text.

ghost use Rattle.std.specs.Prelude.{◌≡◌, OnOk};
ghost use Rattle.rv_emit.specs.Site.{addresses_of, label_place, Passes};

use rv_flat::Instruction;
use std::collections::HashMap;
use tu_base::{Memory, TEXT_AT};

// The piece that all run-time arrays share.
pub const SHARED_AT: u32 = TEXT_AT + 52;

// Where the first global, the first byte of the texts, and the entries and the labels of the
// routines lie.
#[derive(Drop)]
pub struct Site {
    pub globals: u32,
    pub texts: u32,
    pub entries: Vec<u32>,
    pub labels: Vec<Labels>,
}

impl Site {
    // A routine that is not there has its entry at the end of all code.
    pub fn entry(&self, routine: u32) -> u32
        ensures { result ≡ (addresses_of self.now).entry routine }
    {
        match self.entries.get(routine as usize) {
            None => self.texts,
            Some(entry) => *entry,
        }
    }
}

// Where the labels of a routine lie, and the end of its code.
#[derive(Drop)]
pub struct Labels {
    pub places: HashMap<u64, u32>,
    pub end: u32,
}

impl Labels {
    // A label that is not there lies at the end.
    pub fn place(&self, label: u64) -> u32
        ensures { result ≡ label_place self.now label }
    {
        match self.places.get(&label) {
            None => self.end,
            Some(place) => *place,
        }
    }

    // Passes an instruction at a place. The first place of a label counts.
    pub fn pass(&mut self, instruction: &Instruction, at: u32) -> Result<(), Memory>
        ensures passes { OnOk result (Passes self.old self.new instruction.now at) }
        ensures end { self.new.end ≡ self.old.end }
    {
        if let Instruction::Label { label, .. } = instruction {
            if !self.places.contains_key(label) {
                self.places.insert(*label, at)?;
            }
        }
        Ok(())
    }
}
