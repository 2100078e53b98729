// How many Guards a routine has.

ghost use Rattle.std.specs.Prelude.{◌≡◌, ℕ, ◌+◌, ◌-◌, ◌^◌, length, min};
ghost use Rattle.ir_form.specs.Values.{marks, marks_list, marks_each, marks_of};

use crate::op::{Arm, Op};
use crate::unit::Routine;

// Each adds to how many there were before, up to the greatest number.

#[cycle(guards)]
fn guards_in_op(op: &Op, before: u64) -> u64
    ensures { result ≡ min (before + length (marks op.now)) (2 ^ 64 - 1) }
{
    match op {
        Op::Plain(_) | Op::Leave { .. } => before,
        Op::If { yes, no, .. } => {
            let guards = guards_in(yes.ops.as_slice(), before);
            guards_in(no.ops.as_slice(), guards)
        }
        Op::Case { arms, others, .. } => {
            let guards = guards_in_arms(arms.as_slice(), before);
            guards_in(others.ops.as_slice(), guards)
        }
        Op::Loop { body, .. } => guards_in(body.ops.as_slice(), before),
        Op::Guard { body, handler, .. } => {
            let guards = guards_in(body.ops.as_slice(), before.saturating_add(1));
            guards_in(handler.ops.as_slice(), guards)
        }
    }
}

#[cycle(guards)]
fn guards_in_arms(arms: &[Arm], before: u64) -> u64
    ensures { result ≡ min (before + length (marks_each arms.now)) (2 ^ 64 - 1) }
{
    let mut guards = before;
    for arm in arms {
        guards = guards_in(arm.region.ops.as_slice(), guards);
    }
    guards
}

#[cycle(guards)]
fn guards_in(ops: &[Op], before: u64) -> u64
    ensures { result ≡ min (before + length (marks_list ops.now)) (2 ^ 64 - 1) }
{
    let mut guards = before;
    for op in ops {
        guards = guards_in_op(op, guards);
    }
    guards
}

// How many Guards the routine has, up to the greatest number.
pub fn number_of_guards(routine: &Routine) -> u64
    ensures { result ≡ min (length (marks_of routine.now)) (2 ^ 64 - 1) }
{
    guards_in(routine.body.ops.as_slice(), 0)
}
