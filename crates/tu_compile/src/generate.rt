// The pass that makes region code of a program.

ghost use Rattle.std.specs.Prelude.{◌≡◌};
ghost use Rattle.ir_build.specs.Keeps.{factor};
ghost use Rattle.ir_stmt.specs.Unit.{start};
ghost use Rattle.tu_agree.specs.Keep.{Turns};
ghost use Rattle.tu_compile.specs.Meant.{region_meant, tree_meant};
ghost use Rattle.tu_compile.specs.Ready.{IsReadyUnit};

use ir_form::Unit;
use std::alloc::Global;
use tu_agree::Pass;
use tu_base::Memory;
use tu_check::Checked;

/// From a checked program to region code, which costs at most 1,000 for each of the program's units, and
/// 500 once.
pub struct Generate;

impl Pass for Generate {
    type Before = Checked;

    type After = Unit;

    const SLOW: u64 = 1000;

    const START: u64 = 500;

    ghost SLOW = { factor };

    ghost START = { start };

    ghost meant_before = { tree_meant };

    ghost meant_after = { region_meant };

    ghost bound = { Turns };

    ghost ready = { λ tree. Unit {0} };

    ghost gives = { λ tree unit. IsReadyUnit unit };

    #[tactic(auto, using(crate::proofs::Generating::keeps_program, crate::proofs::Generating::is_ready))]
    fn pass(alloc: Global, before: &Checked) -> Result<Unit, Memory> {
        ir_form::laws::cost_covers_rounds();
        ir_form::laws::going_is_paid();
        ir_stmt::unit(alloc, before)
    }
}
