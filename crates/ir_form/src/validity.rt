// When a unit is valid. It is decided without memory.

ghost use Rattle.std.specs.Prelude.{◌≡◌, ℕ, ◌+◌, ◌↔◌, ◌==◌, length, IsTrue, false};
ghost use Rattle.std.specs.List.{list_all};
ghost use Rattle.ir_form.specs.Values.{values_of, marks_of};
ghost use Rattle.ir_form.specs.Valid.{guarded, leaves, leaves_list, given_list, IsValid};
ghost use Rattle.ir_form.specs.Tests.{scope_of, may_call, call_fits, is_placed, closes, fits, fits_region, fits_each, loop_closes, has_room, is_small, is_valid_routine, is_main};

use crate::around::{Around, is_marked, leave_is_taken, sees_each, sees_used};
use crate::guards::number_of_guards;
use crate::op::{Arm, Op, Region};
use crate::plain::Plain;
use crate::tally::{each_is_once, given_by, number_of_values};
use crate::unit::{Routine, Unit};
use sqlite_items::at;

// The words of a room that a routine keeps beside its memory and its values.
const KEPT_WORDS: u64 = 32;

// The words of a room that each Guard keeps.
const GUARD_WORDS: u64 = 24;

// The greatest depth, and the greatest rooms of a routine that has one and of the main program.
const MOST_DEPTH: u32 = 8;

const MOST_INNER_ROOM: u64 = 512;

const MOST_MAIN_ROOM: u64 = 8_388_608;

fn may_call_routine(caller: &Routine, callee: &Routine) -> bool
    ensures { result ≡ may_call caller.now callee.now }
{
    caller.depth == 0 || callee.depth != 0 && callee.depth < caller.depth
}

fn call_agrees(caller: &Routine, callee: &Routine, arguments: usize, to: usize) -> bool
    ensures { result ≡ call_fits caller.now callee.now arguments to }
{
    arguments == callee.body.parameters.len()
        && to == callee.results as usize
        && may_call_routine(caller, callee)
}

fn plain_is_placed(unit: &Unit, routine: &Routine, plain: &Plain) -> bool
    ensures { result ≡ is_placed unit.now routine.now plain.now }
{
    match plain {
        Plain::Global { word, .. } => *word < unit.globals,
        Plain::Frame { word, .. } => *word < routine.words,
        Plain::Text { byte, .. } => (*byte as usize) < unit.texts.len(),
        Plain::Call {
            routine: callee,
            arguments,
            to,
            ..
        } => match at(unit.routines.as_slice(), *callee as usize) {
            None => false,
            Some(callee) => call_agrees(routine, callee, arguments.len(), to.len()),
        },
        Plain::Take { .. } | Plain::Give { .. } => routine.depth == 0,
        _ => true,
    }
}

// Whether the operation ends its region for good.
fn leaves_region(op: &Op) -> bool
    ensures { result ≡ leaves op.now }
{
    match op {
        Op::Plain(Plain::Raise { .. } | Plain::Throw { .. }) | Op::Leave { .. } => true,
        _ => false,
    }
}

// Whether the last operation does.
fn leaves_at_end(ops: &[Op]) -> bool
    ensures { result ≡ leaves_list false ops.now }
{
    match ops.last() {
        None => false,
        Some(op) => leaves_region(op),
    }
}

// Whether the region takes as many values as are handed to it, and gives as many as are taken.
fn region_closes(region: &Region, around: &Around<'_>, handed: usize, taken: usize) -> bool
    ensures { result ≡ closes (scope_of around.now) handed region.now.parameters (given_list region.now.ops) (leaves_list false region.now.ops) region.now.results taken }
{
    let end = Around::Region {
        outer: around,
        parameters: region.parameters.as_slice(),
        before: region.ops.as_slice(),
    };
    let taken = if leaves_at_end(region.ops.as_slice()) {
        0
    } else {
        taken
    };
    region.parameters.len() == handed
        && sees_each(&end, region.results.as_slice())
        && region.results.len() == taken
}

#[cycle(fits)]
fn op_fits<'a>(op: &'a Op, around: &'a Around<'a>, unit: &Unit, routine: &Routine) -> bool
    ensures { result ≡ fits unit.now routine.now (scope_of around.now) op.now }
{
    match op {
        Op::Plain(plain) => { sees_used(around, plain) && plain_is_placed(unit, routine, plain) }
        Op::If {
            left,
            right,
            yes,
            no,
            to,
            ..
        } => {
            sees_each(around, &[*left, *right])
                && region_fits(yes, around, unit, routine, 0, to.len())
                && region_fits(no, around, unit, routine, 0, to.len())
        }
        Op::Case {
            value,
            arms,
            others,
            to,
        } => {
            sees_each(around, &[*value])
                && arms_fit(arms.as_slice(), around, unit, routine, to.len())
                && region_fits(others, around, unit, routine, 0, to.len())
        }
        Op::Loop {
            start,
            body,
            to,
            ..
        } => loop_fits(body, around, unit, routine, start.as_slice(), to.len()),
        Op::Guard {
            mark,
            body,
            handler,
            to,
        } => {
            !is_marked(around, *mark)
                && guarded_fits(body, around, unit, routine, *mark, to.len())
                && region_fits(handler, around, unit, routine, 2, to.len())
        }
        Op::Leave { exit, gives } => {
            sees_each(around, gives.as_slice())
                && leave_is_taken(*exit, around, routine, gives.len())
        }
    }
}

// Whether the body of a loop fits, which starts with these values and gives so many where it is
// left.
#[cycle(fits)]
fn loop_fits<'a>(
    body: &'a Region,
    around: &'a Around<'a>,
    unit: &Unit,
    routine: &Routine,
    start: &[u32],
    taken: usize,
) -> bool
    ensures { result ≡ loop_closes unit.now routine.now (scope_of around.now) start.now taken body.now }
{
    let inside = Around::Loop {
        outer: around,
        taken,
    };
    let next = body.parameters.len();
    sees_each(around, start) && region_fits(body, &inside, unit, routine, start.len(), next)
}

// Whether the body of a Guard of this mark fits, which gives so many values.
#[cycle(fits)]
fn guarded_fits<'a>(
    body: &'a Region,
    around: &'a Around<'a>,
    unit: &Unit,
    routine: &Routine,
    mark: u32,
    taken: usize,
) -> bool
    ensures { result ≡ fits_region unit.now routine.now (guarded (scope_of around.now) mark) 0 taken body.now }
{
    let inside = Around::Guard {
        outer: around,
        mark,
    };
    region_fits(body, &inside, unit, routine, 0, taken)
}

#[cycle(fits)]
fn arms_fit<'a>(
    arms: &'a [Arm],
    around: &'a Around<'a>,
    unit: &Unit,
    routine: &Routine,
    taken: usize,
) -> bool
    ensures { result ≡ fits_each unit.now routine.now (scope_of around.now) taken arms.now }
{
    for arm in arms {
        if !region_fits(&arm.region, around, unit, routine, 0, taken) {
            return false;
        }
    }
    true
}

#[cycle(fits)]
fn region_fits<'a>(
    region: &'a Region,
    around: &'a Around<'a>,
    unit: &Unit,
    routine: &Routine,
    handed: usize,
    taken: usize,
) -> bool
    ensures { result ≡ fits_region unit.now routine.now (scope_of around.now) handed taken region.now }
{
    let ops = region.ops.as_slice();
    let mut giving = 0;
    for (i, op) in ops.iter().enumerate() {
        let here = Around::Region {
            outer: around,
            parameters: region.parameters.as_slice(),
            before: &ops[..giving],
        };
        if !op_fits(op, &here, unit, routine) {
            return false;
        }
        // A search is short where many operations that define nothing stand at the end.
        if !given_by(op).is_empty() {
            giving = i + 1;
        }
    }
    region_closes(region, around, handed, taken)
}

// Whether the room holds the memory, the values, the words of the Guards and those that every
// routine keeps.
fn room_suffices(routine: &Routine) -> bool
    ensures { result ≡ has_room routine.now (length (values_of routine.now)) (length (marks_of routine.now)) }
{
    if routine.room < KEPT_WORDS {
        return false;
    }
    let free = routine.room - KEPT_WORDS;
    if routine.words > free {
        return false;
    }
    let free = free - routine.words;
    let values = number_of_values(routine);
    values <= free && number_of_guards(routine) <= (free - values) / GUARD_WORDS
}

fn depth_is_valid(routine: &Routine) -> bool
    ensures { result ≡ is_small routine.now }
{
    routine.depth <= MOST_DEPTH && (routine.depth == 0 || routine.room <= MOST_INNER_ROOM)
}

fn routine_is_valid(unit: &Unit, routine: &Routine) -> bool
    ensures { result ≡ is_valid_routine unit.now routine.now }
{
    let handed = routine.body.parameters.len();
    let taken = routine.results as usize;
    depth_is_valid(routine)
        && room_suffices(routine)
        && each_is_once(routine)
        && region_fits(
            &routine.body,
            &Around::Nothing,
            unit,
            routine,
            handed,
            taken,
        )
}

fn main_is_valid(main: &Routine) -> bool
    ensures { result ≡ is_main main.now }
{
    main.depth == 0
        && main.room <= MOST_MAIN_ROOM
        && main.body.parameters.len() == 0
        && main.results == 0
}

fn routines_are_valid(unit: &Unit) -> bool
    ensures { result ≡ list_all (is_valid_routine unit.now) unit.now.routines }
{
    for routine in unit.routines.as_slice() {
        if !routine_is_valid(unit, routine) {
            return false;
        }
    }
    true
}

/// Whether a unit is valid. It takes no memory.
///
/// It is fast where the numbers of a routine rise in the order of definitions: in an operation the
/// values of its regions, one region after the other, and then those that it defines itself. A
/// value is then looked up by halving. Where numbers do not rise, the time may grow with the square
/// of the routine.
pub fn valid(unit: &Unit) -> bool
    ensures { IsTrue result ↔ IsValid unit.now }
{
    match at(unit.routines.as_slice(), unit.main as usize) {
        None => false,
        Some(main) => main_is_valid(main) && routines_are_valid(unit),
    }
}
