// The frame of a routine.

ghost use Rattle.std.specs.Prelude.{◌≡◌, ◌<◌, ◌≤◌, ◌++◌, OnOk};
ghost use Rattle.rv_runs.specs.Stands.{codes_of};
ghost use Rattle.rv_layout.specs.Pieces.{reach as reach_of};
ghost use Rattle.rv_layout.specs.Rooms.{cut as cut_off, slot as slot_of, room_bytes as bytes_of_room, load_value, store_value};
ghost use Rattle.rv_emit.specs.Placed.{frame_head, number_in};

use rv_alloc::{Place, Places};
use rv_flat::LinearRoutine;
use rv_pieces::{NEAR, Output};
use tu_base::Memory;

// No routine runs with more words than this.
const MOST_WORDS: u64 = 8388609;

// A number of words, cut off behind these.
pub fn cut(words: u64) -> u64
    ensures is { result ≡ cut_off words }
    ensures bound { result ≤ 8388609 }
{
    words.min(MOST_WORDS)
}

/// How many instructions reach the word so many bytes behind an address.
pub fn reach(offset: u64) -> u64
    ensures { result ≡ reach_of offset }
{
    if offset < NEAR { 1 } else { 3 }
}

// A routine, and where its values are.
#[derive(Clone, Copy)]
pub struct Frame<'a> {
    pub routine: &'a LinearRoutine,
    pub places: &'a Places,
}

impl Frame<'_> {
    // Where a value lies, in bytes behind the frame's lowest one.
    pub fn slot(self, value: u32) -> u64
        ensures is { result ≡ slot_of (frame_head self.entry) (number_in self.entry value) }
        ensures bound { result < 68719476736 }
    {
        let slot = match self.places.of(value) {
            None => 0,
            Some(Place::Slot(slot)) => u64::from(slot),
            Some(Place::Register(register)) => u64::from(register) + 1,
        };
        4 * (cut(self.routine.words) + slot)
    }

    // The number of the place of a value.
    pub fn number(self, value: u32) -> u64
        ensures is { result ≡ number_in self.entry value }
        ensures bound { result < 8589934592 }
    {
        match self.places.of(value) {
            None => 0,
            Some(Place::Slot(slot)) => 2 * u64::from(slot) + 1,
            Some(Place::Register(register)) => 2 * u64::from(register) + 2,
        }
    }

    // Where the place with a number lies.
    pub fn slot_at(self, number: u64) -> u64
        requires { number < 8589934592 }
        ensures { result ≡ slot_of (frame_head self.entry) number }
    {
        4 * (cut(self.routine.words) + number / 2)
    }

    pub fn room_bytes(self) -> u32
        ensures { result ≡ bytes_of_room (frame_head self.entry) }
    {
        4 * (cut(self.routine.room) as u32)
    }

    // A value into a register.
    pub fn load(self, out: &mut Output, to: u8, value: u32) -> Result<(), Memory>
        requires { to < 32 }
        ensures { OnOk result (out.new ≡ out.old ++ codes_of (load_value (frame_head self.entry) to (number_in self.entry value))) }
    {
        out.push_load(to, 2, self.slot(value))
    }

    // A register to where a value lies.
    pub fn store(self, out: &mut Output, from: u8, value: u32) -> Result<(), Memory>
        requires { from < 32 }
        ensures { OnOk result (out.new ≡ out.old ++ codes_of (store_value (frame_head self.entry) from (number_in self.entry value))) }
    {
        out.push_store(from, 2, self.slot(value))
    }
}
