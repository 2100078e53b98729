// How many words instructions take.

ghost use Rattle.std.specs.Prelude.{◌≡◌, ◌≤◌, ◌+◌, ℕ, true, slice_get};
ghost use Rattle.ir_form.specs.Values.{asked};
ghost use Rattle.rv_alloc.specs.Renamed.{renamed, renamed_plain, renamed_service};
ghost use Rattle.rv_layout.specs.Pieces.{constant_length as length_of_constant, reach as reach_of};
ghost use Rattle.rv_layout.specs.Rooms.{head_at, slot as slot_of};
ghost use Rattle.rv_layout.specs.Moves.{are_near as all_near, is_among as is_one_of, is_mixed as any_mixed, handing_length as length_of_handing};
ghost use Rattle.rv_layout.specs.Calling.{passing_length as length_of_passing, each_length as length_of_each, calling_length as length_of_calling, returning_length as length_of_returning};
ghost use Rattle.rv_text.specs.Lengths.{load_length, plain_length as length_of_plain, instruction_length as length_of_instruction};
ghost use Rattle.rv_emit.specs.Placed.{frame_head, head_of_callee, number_in, numbers_in, routine_in, routines_of, capped};

use crate::frame::{Frame, cut, reach};
use ir_form::Plain;
use rv_alloc::Assigned;
use rv_flat::Instruction;
use rv_isa::Service;
use rv_pieces::NEAR;

pub fn constant_length(word: u32) -> u64
    ensures { result ≡ length_of_constant word }
{
    if word < 2048 { 1 } else { 2 }
}

/// A routine with its places, if it is there.
#[tactic(auto, using(crate::proofs::Finding::placed_get))]
pub fn frame_of(assigned: &Assigned, routine: usize) -> Option<Frame<'_>>
    ensures routine { routine_in result ≡ slice_get (routines_of assigned.now) routine }
    ensures head { head_of_callee result ≡ head_at (routines_of assigned.now) routine }
{
    match assigned.linear().routines.get(routine) {
        None => None,
        Some(r) => match assigned.places_of(routine) {
            None => None,
            Some(places) => Some(Frame { routine: r, places }),
        },
    }
}

impl Frame<'_> {
    fn value_length(self, value: u32) -> u64
        ensures is { result ≡ reach_of (slot_of (frame_head self.entry) (number_in self.entry value)) }
        ensures bound { result ≤ 3 }
    {
        reach(self.slot(value))
    }

    // Of values that are handed on one by one.
    fn each_length(self, values: &[u32]) -> u64
        ensures { result ≡ capped (length_of_each (frame_head self.entry) (numbers_in self.entry values.now)) }
    {
        let mut length: u64 = 0;
        for value in values {
            length = length.saturating_add(self.value_length(*value) + 1);
        }
        length
    }

    fn service_length(self, service: Service) -> u64
        ensures is { result ≡ load_length (frame_head self.entry) (asked (renamed_service (number_in self.entry) service)) }
        ensures bound { result ≤ 9 }
    {
        match service {
            Service::End => 0,
            Service::Stop { kind, line } => self.value_length(kind) + self.value_length(line),
            Service::PutConsole { at, length } => self.value_length(at) + self.value_length(length),
            Service::GetConsole => 0,
            Service::Open { at, length, mode } => {
                self.value_length(at) + self.value_length(length) + self.value_length(mode)
            }
            Service::Close { stream } => self.value_length(stream),
            Service::PutStream { stream, at, length } => {
                self.value_length(stream) + self.value_length(at) + self.value_length(length)
            }
            Service::GetStream { stream } => self.value_length(stream),
            Service::State { stream } => self.value_length(stream),
        }
    }
}

impl Frame<'_> {
    // Of arguments that are put into the slots of parameters.
    fn passing_length(self, callee: Frame, arguments: &[u32]) -> u64
        ensures { result ≡ capped (length_of_passing (frame_head self.entry) (frame_head callee.entry) (frame_head callee.entry).parameters (numbers_in self.entry arguments.now)) }
    {
        let parameters = callee.routine.parameters.as_slice();
        let mut length: u64 = 0;
        for i in 0..parameters.len().min(arguments.len()) {
            let more = self.value_length(arguments[i]) + callee.value_length(parameters[i]);
            length = length.saturating_add(more);
        }
        length
    }

    fn calling_length(self, callee: Option<Frame>, arguments: &[u32], to: &[u32]) -> u64
        ensures { result ≡ capped (length_of_calling (frame_head self.entry) (head_of_callee callee.entry) (numbers_in self.entry arguments.now) (numbers_in self.entry to.now)) }
    {
        let passing = match callee {
            None => 0,
            Some(callee) => self.passing_length(callee, arguments),
        };
        let taking = self.each_length(to);
        passing.saturating_add(10).saturating_add(taking)
    }

    fn returning_length(self, values: &[u32]) -> u64
        ensures { result ≡ capped (length_of_returning (frame_head self.entry) (numbers_in self.entry values.now)) }
    {
        let room = constant_length(self.room_bytes());
        self.each_length(values).saturating_add(3 + room)
    }
}

// Of hand-overs.
impl Frame<'_> {
    pub fn are_near(self, values: &[u32]) -> bool
        ensures { result ≡ all_near (frame_head self.entry) (numbers_in self.entry values.now) }
    {
        for value in values {
            if self.slot(*value) >= NEAR {
                return false;
            }
        }
        true
    }

    pub fn is_among(self, values: &[u32], number: u64) -> bool
        ensures { result ≡ is_one_of (numbers_in self.entry values.now) number }
    {
        for value in values {
            if number == self.number(*value) {
                return true;
            }
        }
        false
    }

    // The least and the greatest number of a place of these values.
    fn range(self, values: &[u32]) -> (u64, u64)
        ensures { (x : ℕ) → is_one_of (numbers_in self.entry values.now) x ≡ true → (result.0 ≤ x) × (x ≤ result.1) }
    {
        let mut least = u64::MAX;
        let mut greatest = 0;
        for value in values {
            let number = self.number(*value);
            least = least.min(number);
            greatest = greatest.max(number);
        }
        (least, greatest)
    }

    // The same as `is_among`, where the numbers are in a range.
    fn is_among_range(self, values: &[u32], range: (u64, u64), number: u64) -> bool
        requires { (x : ℕ) → is_one_of (numbers_in self values.now) x ≡ true → (range.0 ≤ x) × (x ≤ range.1) }
        ensures { result ≡ is_one_of (numbers_in self.entry values.now) number }
    {
        if number < range.0 || range.1 < number {
            return false;
        }
        self.is_among(values, number)
    }

    // Whether a value is handed on to which another one is handed. It takes long only where the
    // places overlap.
    pub fn is_mixed(self, to: &[u32], from: &[u32]) -> bool
        ensures { result ≡ any_mixed (numbers_in self.entry to.now) (numbers_in self.entry from.now) }
    {
        let range = self.range(to);
        for value in from {
            if self.is_among_range(to, range, self.number(*value)) {
                return true;
            }
        }
        false
    }

    fn handing_length(self, to: &[u32], from: &[u32]) -> u64
        ensures { result ≡ capped (length_of_handing (frame_head self.entry) (numbers_in self.entry to.now) (numbers_in self.entry from.now)) }
    {
        let near = self.are_near(to) && self.are_near(from);
        let width: u64 = if near { 1 } else { 3 };
        let accesses: u64 = if self.is_mixed(to, from) { 4 } else { 2 };
        let count = to.len().min(from.len()) as u64;
        count.saturating_mul(width * accesses).saturating_add(1)
    }
}

impl Frame<'_> {
    fn plain_length(self, assigned: &Assigned, plain: &Plain) -> u64
        ensures { result ≡ capped (length_of_plain (routines_of assigned.now) (frame_head self.entry) (renamed_plain (number_in self.entry) plain.now)) }
    {
        match plain {
            Plain::Constant { to, word } => constant_length(*word) + self.value_length(*to),
            Plain::Global { to, .. } => 2 + self.value_length(*to),
            Plain::Heap { to } => self.value_length(*to),
            Plain::Frame { to, word } => reach(4 * cut(*word)) + self.value_length(*to),
            Plain::Text { to, .. } => 2 + self.value_length(*to),
            Plain::Compute {
                to,
                left,
                right,
                ..
            } => {
                self.value_length(*left) + self.value_length(*right) + 1 + self.value_length(*to)
            }
            Plain::Load { to, at, .. } => self.value_length(*at) + 1 + self.value_length(*to),
            Plain::Store { at, from, .. } => self.value_length(*at) + self.value_length(*from) + 1,
            Plain::Ask { to, service } => self.service_length(*service)
                + 2
                + self.value_length(*to),
            Plain::Call {
                routine,
                arguments,
                to,
                ..
            } => {
                let callee = frame_of(assigned, *routine as usize);
                self.calling_length(callee, arguments.as_slice(), to.as_slice())
            }
            Plain::Raise { .. } => 5,
            Plain::Throw { kind, line } => self.value_length(*kind) + self.value_length(*line) + 2,
            Plain::Take { to, words, .. } => self.value_length(*words) + 7 + self.value_length(*to),
            Plain::Give { words } => self.value_length(*words) + 6,
        }
    }

    pub fn instruction_length(self, assigned: &Assigned, instruction: &Instruction) -> u64
        ensures { result ≡ capped (length_of_instruction (routines_of assigned.now) (frame_head self.entry) (renamed (number_in self.entry) instruction.now)) }
    {
        match instruction {
            Instruction::Plain(plain) => self.plain_length(assigned, plain),
            Instruction::Guarded { plain, .. } => self.plain_length(assigned, plain),
            Instruction::Open { .. } => 0,
            Instruction::Branch { left, right, .. } => {
                self.value_length(*left) + self.value_length(*right) + 3
            }
            Instruction::Within { value, .. } => self.value_length(*value) + 8,
            Instruction::Hand { to, from } => self.handing_length(to.as_slice(), from.as_slice()),
            Instruction::Jump { .. } => 2,
            Instruction::Label { .. } => 1,
            Instruction::Back { gives } => self.returning_length(gives.as_slice()),
        }
    }
}
