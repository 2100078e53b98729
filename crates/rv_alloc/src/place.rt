// Where values are kept.

ghost use Rattle.std.specs.Prelude.{◌≡◌, ℕ, Some, None, OnOk};
ghost use Rattle.rv_alloc.specs.Places.{place_of, number_of, GivesSlot};

use std::alloc::Global;
use std::collections::HashMap;
use tu_base::Memory;

/// Where a value is kept.
#[derive(Clone, Copy, PartialEq, Eq, Debug)]
pub enum Place {
    /// A slot of the routine's frame, counted from 0.
    Slot(u32),
    /// A register of the pool.
    Register(u8),
}

impl Place {
    /// A number that no other place has, and not 0.
    pub fn number(self) -> u64
        ensures { result ≡ number_of (Some self) }
    {
        match self {
            Place::Slot(slot) => 2 * u64::from(slot) + 1,
            Place::Register(register) => 2 * u64::from(register) + 2,
        }
    }
}

/// The places of a routine's values, of which each has at most one.
#[derive(Drop)]
pub struct Places {
    by_value: HashMap<u32, Place>,
    slots: u32,
}

impl Places {
    /// No places.
    pub(crate) fn new(alloc: Global) -> Places
        ensures places { (value : ℕ) → place_of result value ≡ None }
        ensures slots { result.slots ≡ 0 }
    {
        Places {
            by_value: HashMap::new(alloc),
            slots: 0,
        }
    }

    /// The place of a value, if it has one.
    pub fn of(&self, value: u32) -> Option<Place>
        ensures { result ≡ place_of self.now value }
    {
        self.by_value.get(&value).copied()
    }

    /// How many slots there are.
    pub fn slots(&self) -> u32
        ensures { result ≡ self.now.slots }
    {
        self.slots
    }

    /// Gives a value a slot of its own, unless it has a place.
    pub(crate) fn give_slot(&mut self, value: u32) -> Result<(), Memory>
        ensures { OnOk result (GivesSlot self.old self.new value) }
    {
        if self.by_value.contains_key(&value) {
            return Ok(());
        }
        // Memory is out long before the numbers of slots are.
        let slots = self.slots.checked_add(1).ok_or(Memory)?;
        self.by_value.insert(value, Place::Slot(self.slots))?;
        self.slots = slots;
        Ok(())
    }
}
