// The pass from region code to linear code.

ghost use Rattle.tu_agree.specs.Keep.{Turns};
ghost use Rattle.tu_compile.specs.Meant.{linear_meant, region_meant};
ghost use Rattle.tu_compile.specs.Ready.{IsFlattened, IsReadyUnit};

use ir_form::Unit;
use rv_flat::{Linear, cost_covers_rounds, going_is_paid};
use std::alloc::Global;
use tu_agree::Pass;
use tu_base::Memory;

/// From region code to linear code, which costs no more.
pub struct Flat;

impl Pass for Flat {
    type Before = Unit;

    type After = Linear;

    const SLOW: u64 = 1;

    const START: u64 = 0;

    ghost SLOW = { 1 };

    ghost START = { 0 };

    ghost meant_before = { region_meant };

    ghost meant_after = { linear_meant };

    ghost bound = { Turns };

    ghost ready = { IsReadyUnit };

    ghost gives = { IsFlattened };

    fn pass(alloc: Global, before: &Unit) -> Result<Linear, Memory> {
        cost_covers_rounds();
        going_is_paid();
        rv_flat::flat(alloc, before)
    }
}
