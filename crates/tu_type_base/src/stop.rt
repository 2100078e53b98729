// Why there is no core, and what is told of two parts.
ghost use Rattle.std.specs.Prelude.{◌≡◌, Err};
ghost use Rattle.tu_expr.specs.Leaves.{mark};
ghost use Rattle.tu_type_base.specs.Checked.{Checked, kind_number, lesser, fault as fault_of, both as both_of};
ghost use Rattle.tu_type_base.specs.Answers.{IsAnswer, joined};

use crate::{Fault, FaultKind};
use std::alloc::AllocError;
use tu_base::Memory;
use tu_expr::At;

/// Why a form comes to nothing.
#[derive(Clone, Copy, PartialEq, Eq)]
pub enum Stop {
    /// The least fault.
    Told(Fault),
    /// Want of memory.
    Memory,
}

impl From<AllocError> for Stop {
    ghost use Rattle.tu_type_base.specs.declared.stop.Stop.TheVariants.{Memory as want_of_memory};

    ghost from_gives = { λ given stop. stop ≡ want_of_memory };

    fn from(_: AllocError) -> Self {
        Stop::Memory
    }
}

impl From<Memory> for Stop {
    ghost use Rattle.tu_type_base.specs.declared.stop.Stop.TheVariants.{Memory as want_of_memory};

    ghost from_gives = { λ given stop. stop ≡ want_of_memory };

    fn from(_: Memory) -> Self {
        Stop::Memory
    }
}

fn kind_number(kind: FaultKind) -> u64
    ensures { result ≡ kind_number kind }
{
    match kind {
        FaultKind::Misplaced => 0,
        FaultKind::Mismatch => 1,
        FaultKind::NotConstant => 2,
        FaultKind::OutOfRange => 3,
        FaultKind::NotVariable => 4,
        FaultKind::BadCount => 5,
        FaultKind::TooLarge => 6,
    }
}

fn lesser(first: Fault, second: Fault) -> Fault
    ensures { result ≡ lesser first second }
{
    let first_start: u64 = first.start.into();
    let second_start: u64 = second.start.into();
    if 8 * second_start + kind_number(second.kind) < 8 * first_start + kind_number(first.kind) {
        second
    } else {
        first
    }
}

fn joined(first: Stop, second: Stop) -> Stop
    ensures { result ≡ joined first second }
{
    match first {
        Stop::Memory => Stop::Memory,
        Stop::Told(fault) => match second {
            Stop::Memory => Stop::Memory,
            Stop::Told(other) => Stop::Told(lesser(fault, other)),
        },
    }
}

/// Two parts of a form: it has the faults of both.
pub fn both<A: Drop, B: Drop>(
    first: Result<A, Stop>,
    second: Result<B, Stop>,
) -> Result<(A, B), Stop>
    ensures { (x : Checked A) (y : Checked B) → IsAnswer first x → IsAnswer second y → IsAnswer result (both_of x y) }
{
    match first {
        Ok(one) => match second {
            Ok(other) => Ok((one, other)),
            Err(stop) => Err(stop),
        },
        Err(stop) => match second {
            Ok(_) => Err(stop),
            Err(other) => Err(joined(stop, other)),
        },
    }
}

/// A form's own fault, at a place.
pub fn faulty<A>(kind: FaultKind, at: At) -> Result<A, Stop>
    ensures { IsAnswer result (fault_of kind (mark at)) }
{
    Err(Stop::Told(Fault {
        kind,
        start: at.start,
        line: at.line,
    }))
}
