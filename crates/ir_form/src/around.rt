// What lies before and around an operation, linked on the stack. A search for a value first tries
// the place where it lies if numbers rise.

ghost use Rattle.std.specs.Prelude.{◌≡◌, ℕ, ◌+◌, ◌<◌, ◌≤◌, [], ◌∷◌, ◌++◌, length, true, slice_get};
ghost use Rattle.std.specs.Bool.{OnTrue};
ghost use Rattle.ir_form.specs.Values.{asked, used};
ghost use Rattle.ir_form.specs.Valid.{given_list};
ghost use Rattle.ir_form.specs.Tests.{scope_of, contains, sees, is_taken};

use crate::op::{Exit, Op};
use crate::plain::Plain;
use crate::tally::given_by;
use crate::unit::Routine;
use rv_isa::Service;

/// What lies before and around an operation.
#[derive(Clone, Copy)]
pub enum Around<'a> {
    /// Nothing, where a routine begins.
    Nothing,
    /// The parameters of its region, what stands before it there, and what lies around that.
    Region {
        outer: &'a Around<'a>,
        parameters: &'a [u32],
        before: &'a [Op],
    },
    /// A loop that takes so many values where it is left, and what lies around that.
    Loop {
        outer: &'a Around<'a>,
        taken: usize,
    },
    /// The Guard of this mark, whose body it is, and what lies around that.
    Guard {
        outer: &'a Around<'a>,
        mark: u32,
    },
}

fn contains_value(values: &[u32], value: u32) -> bool
    ensures { result ≡ contains values.now value }
{
    values.contains(&value)
}

// Whether the place of the value among rising values has it.
fn has_in_order(values: &[u32], value: u32) -> bool
    ensures { OnTrue result (contains values.now value ≡ true) }
{
    values.binary_search(&value).is_ok()
}

// The last place from `low` to `high` at which an operation defines values, or `low`.
fn last_giving(ops: &[Op], low: usize, high: usize) -> usize
    requires order { low ≤ high }
    requires within { high < length ops.now }
    ensures low { low ≤ result }
    ensures high { result ≤ high }
{
    let mut place = high;
    while place > low && given_by(&ops[place]).is_empty() {
        place -= 1;
    }
    place
}

// Whether the operation at the value's place, if numbers rise, defines it.
fn gives_in_order(ops: &[Op], value: u32) -> bool
    ensures { OnTrue result (contains (given_list ops.now) value ≡ true) }
{
    let mut low = 0;
    let mut high = ops.len();
    while low < high {
        let middle = low + (high - low) / 2;
        let place = last_giving(ops, low, middle);
        let given = given_by(&ops[place]);
        if has_in_order(given, value) {
            return true;
        }
        match given.first() {
            Some(first) if value < *first => high = place,
            _ => low = middle + 1,
        }
    }
    false
}

// Whether an operation defines the value.
fn gives(ops: &[Op], value: u32) -> bool
    ensures { result ≡ contains (given_list ops.now) value }
{
    for op in ops {
        if contains_value(given_by(op), value) {
            return true;
        }
    }
    false
}

// Whether the value is found at its place if numbers rise.
fn sees_in_order(around: &Around<'_>, value: u32) -> bool
    ensures { OnTrue result (contains (scope_of around.now).values value ≡ true) }
{
    match around {
        Around::Nothing => false,
        Around::Region {
            outer,
            parameters,
            before,
        } => {
            gives_in_order(before, value)
                || has_in_order(parameters, value)
                || sees_in_order(outer, value)
        }
        Around::Loop { outer, .. } => sees_in_order(outer, value),
        Around::Guard { outer, .. } => sees_in_order(outer, value),
    }
}

fn sees_anywhere(around: &Around<'_>, value: u32) -> bool
    ensures { result ≡ contains (scope_of around.now).values value }
{
    match around {
        Around::Nothing => false,
        Around::Region {
            outer,
            parameters,
            before,
        } => {
            sees_anywhere(outer, value) || contains_value(parameters, value) || gives(before, value)
        }
        Around::Loop { outer, .. } => sees_anywhere(outer, value),
        Around::Guard { outer, .. } => sees_anywhere(outer, value),
    }
}

pub fn sees_each(around: &Around<'_>, wanted: &[u32]) -> bool
    ensures { result ≡ sees (scope_of around.now) wanted.now }
{
    for value in wanted {
        if !sees_in_order(around, *value) && !sees_anywhere(around, *value) {
            return false;
        }
    }
    true
}

fn sees_asked(around: &Around<'_>, service: Service) -> bool
    ensures { result ≡ sees (scope_of around.now) (asked service) }
{
    match service {
        Service::End | Service::GetConsole => true,
        Service::Stop { kind, line } => sees_each(around, &[kind, line]),
        Service::PutConsole { at, length } => sees_each(around, &[at, length]),
        Service::Open { at, length, mode } => sees_each(around, &[at, length, mode]),
        Service::Close { stream } => sees_each(around, &[stream]),
        Service::PutStream { stream, at, length } => sees_each(around, &[stream, at, length]),
        Service::GetStream { stream } => sees_each(around, &[stream]),
        Service::State { stream } => sees_each(around, &[stream]),
    }
}

pub fn sees_used(around: &Around<'_>, plain: &Plain) -> bool
    ensures { result ≡ sees (scope_of around.now) (used plain.now) }
{
    match plain {
        Plain::Constant { .. } | Plain::Global { .. } | Plain::Heap { .. } => true,
        Plain::Frame { .. } | Plain::Text { .. } | Plain::Raise { .. } => true,
        Plain::Throw { kind, line } => sees_each(around, &[*kind, *line]),
        Plain::Compute { left, right, .. } => sees_each(around, &[*left, *right]),
        Plain::Load { at, .. } => sees_each(around, &[*at]),
        Plain::Store { at, from, .. } => sees_each(around, &[*at, *from]),
        Plain::Ask { service, .. } => sees_asked(around, *service),
        Plain::Call { arguments, .. } => sees_each(around, arguments.as_slice()),
        Plain::Take { words, .. } => sees_each(around, &[*words]),
        Plain::Give { words } => sees_each(around, &[*words]),
    }
}

// How many values the loop takes that lies so many loops outside the innermost one.
fn taken_outside(around: &Around<'_>, loops: u32) -> Option<usize>
    ensures { result ≡ slice_get (scope_of around.now).loops loops }
{
    match around {
        Around::Nothing => None,
        Around::Region { outer, .. } => taken_outside(outer, loops),
        Around::Guard { outer, .. } => taken_outside(outer, loops),
        Around::Loop { outer, taken } => {
            if loops == 0 {
                Some(*taken)
            } else {
                taken_outside(outer, loops - 1)
            }
        }
    }
}

// Whether it lies in the body of a Guard of this mark.
pub fn is_marked(around: &Around<'_>, mark: u32) -> bool
    ensures { result ≡ contains (scope_of around.now).marks mark }
{
    match around {
        Around::Nothing => false,
        Around::Region { outer, .. } => is_marked(outer, mark),
        Around::Loop { outer, .. } => is_marked(outer, mark),
        Around::Guard { outer, mark: other } => *other == mark || is_marked(outer, mark),
    }
}

pub fn leave_is_taken(exit: Exit, around: &Around<'_>, routine: &Routine, gives: usize) -> bool
    ensures { result ≡ is_taken routine.now (scope_of around.now) exit gives }
{
    match exit {
        Exit::Routine => routine.results as usize == gives,
        Exit::Loop(loops) => match taken_outside(around, loops) {
            None => false,
            Some(taken) => taken == gives,
        },
    }
}
