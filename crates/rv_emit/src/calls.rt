// Calls and returns, and run-time arrays.

ghost use Rattle.std.specs.Prelude.{◌≡◌, ◌<◌, ◌++◌, OnOk};
ghost use Rattle.rv_runs.specs.Stands.{codes_of};
ghost use Rattle.rv_layout.specs.Calling.{tests_room, entering, passing, taking_each, receiving, calling, giving_each, returning, taking, handing_back};
ghost use Rattle.rv_emit.specs.Placed.{frame_head, head_of_callee, number_in, numbers_in};

use crate::frame::Frame;
use rv_isa::{Instr, LoadKind, RegisterOp, ShiftOp};
use rv_pieces::{CALLER, LINK, Output};
use tu_base::{Kind, Memory};

impl Frame<'_> {
    fn push_tests_room(self, out: &mut Output) -> Result<(), Memory>
        ensures { OnOk result (out.new ≡ out.old ++ codes_of (tests_room (frame_head self.entry))) }
    {
        out.push_register(RegisterOp::Sub, 5, 1, 3)?;
        out.push_constant(6, self.room_bytes())?;
        out.push_unless_less(5, 6)?;
        out.push_other_side(0, 0)
    }

    // The routine's entry.
    pub fn push_entering(self, out: &mut Output) -> Result<(), Memory>
        ensures { OnOk result (out.new ≡ out.old ++ codes_of (entering (frame_head self.entry))) }
    {
        if self.routine.depth == 0 {
            self.push_tests_room(out)?;
        } else {
            out.push_constant(6, self.room_bytes())?;
        }
        out.push_takes_room()
    }

    // The arguments go from the caller's slots to the callee's.
    fn push_passing(self, out: &mut Output, callee: Frame, arguments: &[u32]) -> Result<(), Memory>
        ensures { OnOk result (out.new ≡ out.old ++ codes_of (passing (frame_head self.entry) (frame_head callee.entry) (frame_head callee.entry).parameters (numbers_in self.entry arguments.now))) }
    {
        let parameters = callee.routine.parameters.as_slice();
        for i in 0..parameters.len().min(arguments.len()) {
            self.load(out, 5, arguments[i])?;
            out.push_store(5, 1, callee.slot(parameters[i]))?;
        }
        Ok(())
    }

    fn push_taking_each(self, out: &mut Output, to: &[u32]) -> Result<(), Memory>
        ensures { OnOk result (out.new ≡ out.old ++ codes_of (taking_each (frame_head self.entry) (numbers_in self.entry to.now))) }
    {
        for value in to {
            out.push_store(5, 9, self.slot(*value))?;
            out.push_other_side(8, 0)?;
        }
        out.push_copy(2, 9)
    }

    fn push_receiving(self, out: &mut Output, to: &[u32]) -> Result<(), Memory>
        ensures { OnOk result (out.new ≡ out.old ++ codes_of (receiving (frame_head self.entry) (numbers_in self.entry to.now))) }
    {
        out.push(Instr::Load {
            kind: LoadKind::Word,
            rd: 9,
            rs1: 1,
            offset: CALLER,
        })?;
        self.push_taking_each(out, to)
    }

    // A call of a routine with this entry. One that is not there takes no arguments.
    pub fn push_calling(
        self,
        out: &mut Output,
        entry: u32,
        callee: Option<Frame>,
        arguments: &[u32],
        to: &[u32],
        line: u32,
    ) -> Result<(), Memory>
        ensures { OnOk result (out.new ≡ out.old ++ codes_of (calling entry (frame_head self.entry) (head_of_callee callee.entry) (numbers_in self.entry arguments.now) (numbers_in self.entry to.now) line)) }
    {
        out.push_call(entry)?;
        out.push_raising(Kind::Storage.number(), line)?;
        if let Some(callee) = callee {
            self.push_passing(out, callee, arguments)?;
        }
        out.push_other_side(8, 0)?;
        self.push_receiving(out, to)
    }

    fn push_giving_each(self, out: &mut Output, values: &[u32]) -> Result<(), Memory>
        ensures { OnOk result (out.new ≡ out.old ++ codes_of (giving_each (frame_head self.entry) (numbers_in self.entry values.now))) }
    {
        for value in values {
            self.load(out, 5, *value)?;
            out.push_other_side(8, 0)?;
        }
        out.push_other_side(0, 0)
    }

    pub fn push_returning(self, out: &mut Output, values: &[u32]) -> Result<(), Memory>
        ensures { OnOk result (out.new ≡ out.old ++ codes_of (returning (frame_head self.entry) (numbers_in self.entry values.now))) }
    {
        out.push_constant(1, self.room_bytes())?;
        out.push_register(RegisterOp::Add, 1, 1, 2)?;
        out.push(Instr::Load {
            kind: LoadKind::Word,
            rd: 8,
            rs1: 1,
            offset: LINK,
        })?;
        self.push_giving_each(out, values)
    }

    // A run-time array, by the shared piece at this address.
    pub fn push_taking(
        self,
        out: &mut Output,
        shared: u32,
        to: u32,
        words: u32,
        line: u32,
    ) -> Result<(), Memory>
        ensures { OnOk result (out.new ≡ out.old ++ codes_of (taking shared (frame_head self.entry) (number_in self.entry to) (number_in self.entry words) line)) }
    {
        self.load(out, 5, words)?;
        out.push_call(shared)?;
        out.push_raising(Kind::Storage.number(), line)?;
        self.store(out, 1, to)
    }

    pub fn push_handing_back(self, out: &mut Output, words: u32) -> Result<(), Memory>
        ensures { OnOk result (out.new ≡ out.old ++ codes_of (handing_back (frame_head self.entry) (number_in self.entry words))) }
    {
        self.load(out, 5, words)?;
        out.push_register(RegisterOp::Sub, 6, 2, 1)?;
        out.push_shift(ShiftOp::Srli, 6)?;
        out.push_unless_less(6, 5)?;
        out.push_copy(5, 6)?;
        out.push_shift(ShiftOp::Slli, 5)?;
        out.push_register(RegisterOp::Add, 1, 1, 5)
    }
}
