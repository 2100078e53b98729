// Where the labels of a routine lie.

ghost use Rattle.std.specs.Prelude.{◌≡◌, ◌+◌, ◌*◌, ◌<◌, ◌≤◌, ℕ, IfOk};
ghost use Rattle.rv_layout.specs.Calling.{entering_length as length_of_entering};
ghost use Rattle.rv_text.specs.Lengths.{routine_length};
ghost use Rattle.rv_text.specs.Text.{label_at};
ghost use Rattle.rv_emit.specs.Placed.{frame_head, placed_routine, routines_of};
ghost use Rattle.rv_emit.specs.Site.{label_place};

use crate::frame::Frame;
use crate::lengths::constant_length;
use crate::site::Labels;
use rv_alloc::Assigned;
use std::alloc::Global;
use std::collections::HashMap;
use tu_base::Memory;

impl Frame<'_> {
    pub fn entering_length(self) -> u64
        ensures is { result ≡ length_of_entering (frame_head self.entry) }
        ensures bound { result ≤ 11 }
    {
        let test = if self.routine.depth == 0 { 9 } else { 6 };
        test + constant_length(self.room_bytes())
    }

    // The labels of the routine whose entry lies there.
    pub fn labels(self, alloc: Global, assigned: &Assigned, start: u32) -> Result<Labels, Memory>
        requires { start + 4 * routine_length (routines_of assigned.now) (placed_routine self) < 4294967296 }
        ensures end { IfOk result (λ l. l.end ≡ start + 4 * routine_length (routines_of assigned.now) (placed_routine self.entry)) }
        ensures places { IfOk result (λ l. (label : ℕ) → label_place l label ≡ label_at (routines_of assigned.now) start (placed_routine self.entry) label) }
    {
        let mut labels = Labels {
            places: HashMap::new(alloc),
            end: 0,
        };
        let mut at = start + 4 * (self.entering_length() as u32);
        for instruction in self.routine.code.as_slice() {
            labels.pass(instruction, at)?;
            let length = self.instruction_length(assigned, instruction);
            at += 4 * (length as u32);
        }
        labels.end = at;
        Ok(labels)
    }
}
