// Values that are handed on all at once.

ghost use Rattle.std.specs.Prelude.{◌≡◌, ◌<◌, ◌++◌, ◌&&◌, true, false, IsTrue, IfOk, OnOk, All, map, length, ◌+◌};
ghost use Rattle.rv_emit.specs.Mixed.{put_off, IsReached, AllInReach, words_left};
ghost use Rattle.rv_runs.specs.Stands.{codes_of};
ghost use Rattle.rv_layout.specs.Moves.{exchanged, moves, move_words, are_near as all_near, is_mixed as any_mixed, handing};
ghost use Rattle.rv_emit.specs.Placed.{frame_head, numbers_in};

use crate::frame::Frame;
use rv_pieces::Output;
use std::alloc::Global;
use tu_base::Memory;

// A copy that is put off, between words so many bytes behind the frame's lowest byte.
#[derive(Clone, Copy)]
pub struct PutOff {
    to: u64,
    from: u64,
}

// The sources that are left, as exchanges have renamed them, and the copies that are put off.
#[derive(Drop)]
pub struct Mixed {
    rest: Vec<u64>,
    copies: Vec<PutOff>,
}

fn after_exchange(a: u64, b: u64, number: u64) -> u64
    ensures { result ≡ exchanged a b number }
{
    if number == a {
        b
    } else if number == b {
        a
    } else {
        number
    }
}

fn exchange(numbers: &mut [u64], a: u64, b: u64)
    ensures { numbers.new ≡ map (exchanged a b) numbers.old }
{
    for number in numbers.iter_mut() {
        *number = after_exchange(a, b, *number);
    }
}

fn exchange_each(numbers: &mut Vec<u64>, a: u64, b: u64)
    ensures { numbers.new.items ≡ map (exchanged a b) numbers.old.items }
{
    exchange(numbers.as_mut_slice(), a, b);
}

// The last of these comes first.
fn push_put_off(out: &mut Output, near: bool, copies: Vec<PutOff>) -> Result<(), Memory>
    requires { All (IsReached near) copies.items }
    ensures { OnOk result (out.new ≡ out.old ++ codes_of (put_off near copies.items)) }
{
    let mut left = copies;
    while let Some(copy) = left.pop() {
        out.push_mixed_copy(near, copy.to, copy.from)?;
    }
    Ok(())
}

impl Frame<'_> {
    // Where none of the values is one to which another is handed: copies, from the last one on.
    fn push_moves(
        self,
        out: &mut Output,
        near: bool,
        to: &[u32],
        from: &[u32],
    ) -> Result<(), Memory>
        requires near { near ≡ (all_near (frame_head self) (numbers_in self to.now) && all_near (frame_head self) (numbers_in self from.now)) }
        requires unmixed { any_mixed (numbers_in self to.now) (numbers_in self from.now) ≡ false }
        ensures { OnOk result (out.new ≡ out.old ++ codes_of (move_words (frame_head self.entry) near false (moves (numbers_in self.entry to.now) (numbers_in self.entry from.now)))) }
    {
        let mut i = to.len().min(from.len());
        while i > 0 {
            i -= 1;
            out.push_move(near, self.slot(to[i]), self.slot(from[i]))?;
        }
        Ok(())
    }

    fn numbers(self, alloc: Global, values: &[u32]) -> Result<Vec<u64>, Memory>
        ensures is { IfOk result (λ numbers. numbers.items ≡ numbers_in self.entry values.now) }
        ensures bound { IfOk result (λ numbers. All (λ n. n < 8589934592) numbers.items) }
    {
        let mut numbers = Vec::new(alloc);
        for value in values {
            numbers.push(self.number(*value))?;
        }
        Ok(numbers)
    }

    // The next move: an exchange where a later value goes to where this one is, and else a copy.
    fn push_next(
        self,
        out: &mut Output,
        near: bool,
        mixed: &mut Mixed,
        to: &[u32],
        i: usize,
    ) -> Result<(), Memory>
        requires to { i < length to.now }
        requires from { i < length mixed.old.rest.items }
        requires near { IsTrue near → all_near (frame_head self) (numbers_in self to.now) ≡ true }
        requires reach { AllInReach (frame_head self) near mixed.old }
        ensures words { OnOk result (out.new ++ codes_of (words_left (frame_head self.entry) near (numbers_in self.entry to.now) (i + 1) mixed.new) ≡ out.old ++ codes_of (words_left (frame_head self.entry) near (numbers_in self.entry to.now) i mixed.old)) }
        ensures length { OnOk result (length mixed.new.rest.items ≡ length mixed.old.rest.items) }
        ensures reach { OnOk result (AllInReach (frame_head self.entry) near mixed.new) }
    {
        let target = self.number(to[i]);
        let source = mixed.rest[i];
        let to_slot = self.slot_at(target);
        let from_slot = self.slot_at(source);
        if self.is_among(&to[i + 1..], source) {
            exchange_each(&mut mixed.rest, target, source);
            return out.push_swap(near, to_slot, from_slot);
        }
        mixed.copies.push(PutOff {
            to: to_slot,
            from: from_slot,
        })?;
        Ok(())
    }

    // Exchanges come first, in their order, and then the copies, from the last one on.
    fn push_mixed(
        self,
        alloc: Global,
        out: &mut Output,
        near: bool,
        to: &[u32],
        from: &[u32],
    ) -> Result<(), Memory>
        requires { near ≡ (all_near (frame_head self) (numbers_in self to.now) && all_near (frame_head self) (numbers_in self from.now)) }
        ensures { OnOk result (out.new ≡ out.old ++ codes_of (move_words (frame_head self.entry) near true (moves (numbers_in self.entry to.now) (numbers_in self.entry from.now)))) }
    {
        let rest = self.numbers(alloc, from)?;
        let copies = Vec::new(alloc);
        let mut mixed = Mixed { rest, copies };
        for i in 0..to.len().min(from.len()) {
            self.push_next(out, near, &mut mixed, to, i)?;
        }
        let Mixed { copies, .. } = mixed;
        push_put_off(out, near, copies)
    }

    // Hands values on all at once.
    pub fn push_handing(
        self,
        alloc: Global,
        out: &mut Output,
        to: &[u32],
        from: &[u32],
    ) -> Result<(), Memory>
        ensures { OnOk result (out.new ≡ out.old ++ codes_of (handing (frame_head self.entry) (numbers_in self.entry to.now) (numbers_in self.entry from.now))) }
    {
        let near = self.are_near(to) && self.are_near(from);
        out.push_nothing()?;
        if self.is_mixed(to, from) {
            self.push_mixed(alloc, out, near, to, from)
        } else {
            self.push_moves(out, near, to, from)
        }
    }
}
