// How many words a text has.

ghost use Rattle.std.specs.Prelude.{◌≡◌, ◌≤◌, ◌+◌, ◌/◌, length, slice_get};
ghost use Rattle.rv_alloc.specs.Assigned.{placed_code, assigned_size};
ghost use Rattle.rv_text.specs.Lengths.{routine_length};
ghost use Rattle.rv_text.specs.Text.{text_of};
ghost use Rattle.rv_emit.specs.Placed.{placed_routine, routines_of, length_in, capped};
ghost use Rattle.rv_emit.specs.Site.{word_count};

use crate::frame::Frame;
use crate::lengths::frame_of;
use rv_alloc::Assigned;
use rv_text::text_is_measured;

impl Frame<'_> {
    fn length(self, assigned: &Assigned) -> u64
        ensures { result ≡ capped (routine_length (routines_of assigned.now) (placed_routine self.entry)) }
    {
        let mut words = self.entering_length();
        for instruction in self.routine.code.as_slice() {
            words = words.saturating_add(self.instruction_length(assigned, instruction));
        }
        words
    }
}

// Of a routine that may not be there.
fn length_of(assigned: &Assigned, routine: usize) -> u64
    ensures { result ≡ capped (length_in (routines_of assigned.now) (slice_get (routines_of assigned.now) routine)) }
{
    match frame_of(assigned, routine) {
        None => 0,
        Some(frame) => frame.length(assigned),
    }
}

fn counted_words(assigned: &Assigned) -> u64
    ensures { result ≡ capped (word_count (placed_code assigned.now)) }
{
    let mut words: u64 = 20;
    for k in 0..assigned.linear().routines.len() {
        words = words.saturating_add(length_of(assigned, k));
    }
    let bytes = assigned.linear().texts.as_slice().len() as u64;
    words.saturating_add(bytes / 4 + (bytes % 4 + 3) / 4)
}

/// How many words the text of assigned code has, or 2^64 - 1 where that is less. They are at most
/// the size of the code and one for each four bytes of the texts, rounded up.
pub fn text_words(assigned: &Assigned) -> u64
    ensures is { result ≡ capped (length (text_of (placed_code assigned.now))) }
    ensures bound { 1 ≤ length assigned.now.linear.routines → result ≤ assigned_size assigned.now + (length assigned.now.linear.texts + 3) / 4 }
{
    text_is_measured();
    counted_words(assigned)
}
