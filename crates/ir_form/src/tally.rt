// Walks over the values that a routine defines: how many there are, and whether each is defined
// once.

ghost use Rattle.std.specs.Prelude.{◌≡◌, ℕ, ◌+◌, ◌-◌, ◌^◌, ◌==◌, [], ◌∷◌, ◌++◌, length, min, count_by};
ghost use Rattle.std.specs.List.{list_all};
ghost use Rattle.ir_form.specs.Values.{made, given, defined, defined_region, defined_each, values_of};
ghost use Rattle.ir_form.specs.Tests.{started, met, tally_of, is_once};

use crate::op::{Arm, Op, Region};
use crate::plain::Plain;
use crate::unit::Routine;
use std::slice::from_ref;

/// What a walk over definitions has met.
#[derive(Clone, Copy)]
struct Tally {
    /// How many values, up to the greatest number.
    values: u64,
    sought: u32,
    /// How often the sought value.
    found: u64,
    /// Whether each number was above the one before it.
    rises: bool,
    /// The number after the last one.
    next: u64,
}

// The values that an operation with no region defines.
fn made_by(plain: &Plain) -> &[u32]
    ensures { result.now ≡ made plain.now }
{
    match plain {
        Plain::Constant { to, .. } => from_ref(to),
        Plain::Global { to, .. } => from_ref(to),
        Plain::Heap { to } => from_ref(to),
        Plain::Frame { to, .. } => from_ref(to),
        Plain::Text { to, .. } => from_ref(to),
        Plain::Compute { to, .. } => from_ref(to),
        Plain::Load { to, .. } => from_ref(to),
        Plain::Ask { to, .. } => from_ref(to),
        Plain::Take { to, .. } => from_ref(to),
        Plain::Call { to, .. } => to.as_slice(),
        Plain::Store { .. } | Plain::Raise { .. } => &[],
        Plain::Throw { .. } | Plain::Give { .. } => &[],
    }
}

// The values that an operation defines for what follows it in its region.
pub fn given_by(op: &Op) -> &[u32]
    ensures { result.now ≡ given op.now }
{
    match op {
        Op::Plain(plain) => made_by(plain),
        Op::If { to, .. } => to.as_slice(),
        Op::Case { to, .. } => to.as_slice(),
        Op::Loop { to, .. } => to.as_slice(),
        Op::Guard { to, .. } => to.as_slice(),
        Op::Leave { .. } => &[],
    }
}

impl Tally {
    fn new(sought: u32) -> Tally
        ensures { result ≡ started sought }
    {
        Tally {
            values: 0,
            sought,
            found: 0,
            rises: true,
            next: 0,
        }
    }

    // With one more value.
    fn with(self, value: u32) -> Tally
        ensures { result ≡ met self value }
    {
        Tally {
            values: self.values.saturating_add(1),
            found: if value == self.sought {
                self.found.saturating_add(1)
            } else {
                self.found
            },
            rises: self.rises && self.next <= u64::from(value),
            next: u64::from(value) + 1,
            ..self
        }
    }
}

fn tally_values(values: &[u32], before: Tally) -> Tally
    ensures { result ≡ tally_of before values.now }
{
    let mut tally = before;
    for value in values {
        tally = tally.with(*value);
    }
    tally
}

#[cycle(tally)]
fn tally_op(op: &Op, before: Tally) -> Tally
    ensures { result ≡ tally_of before (defined op.now) }
{
    match op {
        Op::Plain(plain) => tally_values(made_by(plain), before),
        Op::If { yes, no, to, .. } => {
            let tally = tally_region(yes, before);
            let tally = tally_region(no, tally);
            tally_values(to.as_slice(), tally)
        }
        Op::Case {
            arms,
            others,
            to,
            ..
        } => {
            let tally = tally_arms(arms.as_slice(), before);
            let tally = tally_region(others, tally);
            tally_values(to.as_slice(), tally)
        }
        Op::Loop { body, to, .. } => {
            let tally = tally_region(body, before);
            tally_values(to.as_slice(), tally)
        }
        Op::Guard {
            body,
            handler,
            to,
            ..
        } => {
            let tally = tally_region(body, before);
            let tally = tally_region(handler, tally);
            tally_values(to.as_slice(), tally)
        }
        Op::Leave { .. } => before,
    }
}

#[cycle(tally)]
fn tally_arms(arms: &[Arm], before: Tally) -> Tally
    ensures { result ≡ tally_of before (defined_each arms.now) }
{
    let mut tally = before;
    for arm in arms {
        tally = tally_region(&arm.region, tally);
    }
    tally
}

#[cycle(tally)]
fn tally_region(region: &Region, before: Tally) -> Tally
    ensures { result ≡ tally_of before (defined_region region.now) }
{
    let mut tally = tally_values(region.parameters.as_slice(), before);
    for op in region.ops.as_slice() {
        tally = tally_op(op, tally);
    }
    tally
}

// How often the routine defines the value, up to the greatest number.
fn times(routine: &Routine, value: u32) -> u64
    ensures { result ≡ min (count_by (λ x. x == value) (values_of routine.now)) (2 ^ 64 - 1) }
{
    tally_region(&routine.body, Tally::new(value)).found
}

fn once_values(values: &[u32], routine: &Routine) -> bool
    ensures { result ≡ list_all (is_once (values_of routine.now)) values.now }
{
    for value in values {
        if times(routine, *value) != 1 {
            return false;
        }
    }
    true
}

#[cycle(once)]
fn once_op(op: &Op, routine: &Routine) -> bool
    ensures { result ≡ list_all (is_once (values_of routine.now)) (defined op.now) }
{
    match op {
        Op::Plain(plain) => once_values(made_by(plain), routine),
        Op::If { yes, no, to, .. } => {
            once_region(yes, routine)
                && once_region(no, routine)
                && once_values(to.as_slice(), routine)
        }
        Op::Case {
            arms,
            others,
            to,
            ..
        } => {
            once_arms(arms.as_slice(), routine)
                && once_region(others, routine)
                && once_values(to.as_slice(), routine)
        }
        Op::Loop { body, to, .. } => {
            once_region(body, routine) && once_values(to.as_slice(), routine)
        }
        Op::Guard {
            body,
            handler,
            to,
            ..
        } => {
            once_region(body, routine)
                && once_region(handler, routine)
                && once_values(to.as_slice(), routine)
        }
        Op::Leave { .. } => true,
    }
}

#[cycle(once)]
fn once_arms(arms: &[Arm], routine: &Routine) -> bool
    ensures { result ≡ list_all (is_once (values_of routine.now)) (defined_each arms.now) }
{
    for arm in arms {
        if !once_region(&arm.region, routine) {
            return false;
        }
    }
    true
}

#[cycle(once)]
fn once_region(region: &Region, routine: &Routine) -> bool
    ensures { result ≡ list_all (is_once (values_of routine.now)) (defined_region region.now) }
{
    if !once_values(region.parameters.as_slice(), routine) {
        return false;
    }
    for op in region.ops.as_slice() {
        if !once_op(op, routine) {
            return false;
        }
    }
    true
}

// How many values the routine defines, up to the greatest number.
pub fn number_of_values(routine: &Routine) -> u64
    ensures { result ≡ min (length (values_of routine.now)) (2 ^ 64 - 1) }
{
    tally_region(&routine.body, Tally::new(0)).values
}

// Rising numbers show it at once. Where they do not rise, each value is counted.
pub fn each_is_once(routine: &Routine) -> bool
    ensures { result ≡ list_all (is_once (values_of routine.now)) (values_of routine.now) }
{
    tally_region(&routine.body, Tally::new(0)).rises || once_region(&routine.body, routine)
}
