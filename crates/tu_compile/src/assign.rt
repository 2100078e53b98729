// The pass that gives the values of linear code their places.

ghost use Rattle.std.proofs.Common.{lit<};
ghost use Rattle.std.specs.Prelude.{refl};
ghost use Rattle.tu_agree.specs.Keep.{Turns};
ghost use Rattle.tu_compile.specs.Meant.{assigned_meant, linear_meant};
ghost use Rattle.tu_compile.specs.Ready.{IsAssigned, IsReadyLinear};

use crate::flat::Flat;
use rv_alloc::Assigned;
use rv_flat::{Linear, cost_covers_rounds, going_is_paid};
use std::alloc::Global;
use tu_agree::{Follows, Pass};
use tu_base::Memory;

/// From linear code to assigned code, which costs no more.
pub struct Assign;

impl Pass for Assign {
    type Before = Linear;

    type After = Assigned;

    const SLOW: u64 = 1;

    const START: u64 = 0;

    ghost SLOW = { 1 };

    ghost START = { 0 };

    ghost meant_before = { linear_meant };

    ghost meant_after = { assigned_meant };

    ghost bound = { Turns };

    ghost ready = { IsReadyLinear };

    ghost gives = { IsAssigned };

    #[tactic(auto, using(crate::proofs::Places::is_assigned))]
    fn pass(alloc: Global, before: &Linear) -> Result<Assigned, Memory> {
        // Assigned code means what linear code over the numbers of its places does.
        cost_covers_rounds();
        going_is_paid();
        rv_alloc::assign(alloc, before)
    }
}

impl Follows<Flat> for Assign {
    ghost turns = { refl };

    ghost next = { λ before middle ready gives. gives.ready };

    ghost same = { λ middle. refl };

    ghost slow_fits = { lit< tt };

    ghost start_fits = { lit< tt };
}
