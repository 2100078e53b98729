// What declarations declare.
ghost use Rattle.std.specs.Prelude.{◌≡◌, [], OnOk, Option};
ghost use Rattle.std.specs.Option.{option_copied};
ghost use Rattle.tu_type_operands.specs.Tables.{entity_in, with_entry};

use crate::Entity;
use std::alloc::Global;
use std::collections::BTreeMap;
use std::marker::Model;
use tu_base::Memory;

/// What each declaration declares, by its number.
#[derive(Drop)]
pub struct Entities {
    by_number: BTreeMap<u32, Entity>,
}

impl Model for Entities {
    ghost use Rattle.std.specs.Prelude.{List, ℕ};
    ghost use Rattle.tu_type_operands.specs.declared.names.Entity.{Entity};

    ghost Value = { List (ℕ × Entity) };

    ghost view = { λ e. e.by_number.entries };
}

impl Entities {
    /// Nothing is declared.
    pub fn new(alloc: Global) -> Self
        ensures { result ≡ [] }
    {
        Entities {
            by_number: BTreeMap::new(alloc),
        }
    }

    /// What the declaration with this number declares.
    pub fn find(&self, number: u32) -> Option<&Entity>
        ensures { option_copied result ≡ entity_in self.now number }
    {
        self.by_number.get(&number)
    }

    /// The declaration with this number declares this from now on.
    pub fn declare(&mut self, number: u32, entity: Entity) -> Result<(), Memory>
        ensures { OnOk result (self.new ≡ with_entry number entity self.old) }
    {
        self.by_number.insert(number, entity)?;
        Ok(())
    }
}
