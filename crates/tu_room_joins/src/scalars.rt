// The scalar locals of a text, and how many of them stand in a list.
ghost use Rattle.std.specs.Prelude.{◌≡◌, [], IfOk};
ghost use Rattle.tu_room_parts.specs.Capped.{capped};
ghost use Rattle.tu_room_joins.specs.Flags.{flag_at, with_flag, left, hits, met};

use std::alloc::Global;
use std::marker::Model;
use tu_base::Memory;
use tu_room_parts::plus;

/// Which locals of a text are scalars.
#[derive(Drop)]
pub struct Scalars {
    /// The number of the first local behind the formals.
    first: u64,
    /// Whether each local from there on is one.
    flags: Vec<bool>,
    /// The same, without those that a count under way has met.
    unmet: Vec<bool>,
}

impl Model for Scalars {
    ghost use Rattle.std.specs.Prelude.{◌≡◌, Bool, List, ℕ};

    ghost Value = { ℕ × List Bool };

    ghost view = { λ s. (s.first, s.flags.items) };

    ghost invariant = { λ s. s.unmet.items ≡ s.flags.items };
}

impl Scalars {
    /// The locals from a number on, with whether each is a scalar.
    pub fn make(alloc: Global, first: u64, flags: Vec<bool>) -> Result<Self, Memory>
        ensures { IfOk result (λ scalars. scalars ≡ (first, flags.items)) }
    {
        let unmet = Vec::from_slice(alloc, flags.as_slice())?;
        Ok(Scalars {
            first,
            flags,
            unmet,
        })
    }

    /// How many of the scalars stand in a list, cut off.
    pub fn count_in(&mut self, list: &[u64]) -> u64
        ensures count { result ≡ capped (met self.old list.now) }
        ensures same { self.new ≡ self.old }
    {
        let count = meet(self.first, self.unmet.as_mut_slice(), list);
        restore(
            self.first,
            self.flags.as_slice(),
            self.unmet.as_mut_slice(),
            list,
        );
        count
    }
}

#[tactic(auto, using(crate::proofs::Flags::at_below, crate::proofs::Flags::at_past, crate::proofs::Flags::at_there))]
fn flag(first: u64, flags: &[bool], x: u64) -> bool
    ensures { result ≡ flag_at first x flags.now }
{
    if x < first {
        return false;
    }
    let i = (x - first) as usize;
    if i < flags.len() { flags[i] } else { false }
}

#[tactic(auto, using(crate::proofs::Flags::with_below, crate::proofs::Flags::with_past, crate::proofs::Flags::with_there))]
fn set_flag(first: u64, flags: &mut [bool], x: u64, flag: bool)
    ensures { flags.new ≡ with_flag first x flag flags.old }
{
    if x < first {
        return;
    }
    let i = (x - first) as usize;
    if i < flags.len() {
        flags[i] = flag;
    }
}

/// Takes the flags of the locals in a list away, and counts them.
fn meet(first: u64, flags: &mut [bool], list: &[u64]) -> u64
    ensures count { result ≡ capped (hits first flags.old list.now) }
    ensures flags { flags.new ≡ left first flags.old list.now [] }
{
    let mut count = 0;
    for x in list {
        if flag(first, flags, *x) {
            count = plus(count, 1);
        }
        set_flag(first, flags, *x, false);
    }
    count
}

/// Gives the locals in a list their flags again.
fn restore(first: u64, flags: &[bool], unmet: &mut [bool], list: &[u64])
    requires { unmet.old ≡ left first flags.now list.now [] }
    ensures { unmet.new ≡ flags.now }
{
    for x in list {
        set_flag(first, unmet, *x, flag(first, flags, *x));
    }
}
