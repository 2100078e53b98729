// The passes in a chain.

ghost use Rattle.std.proofs.Common.{lit<};
ghost use Rattle.std.specs.Prelude.{refl, IfOk};
ghost use Rattle.tu_agree.specs.Keep.{Instructions, KeepsInstructions, Turns};
ghost use Rattle.tu_agree.specs.Outcomes.{image_meant};
ghost use Rattle.tu_compile.specs.Meant.{assigned_meant, region_meant};
ghost use Rattle.tu_compile.specs.Ready.{IsImageOfUnit, IsPlacedCode, IsReadyUnit};

use crate::assign::Assign;
use crate::emit::Emit;
use crate::flat::Flat;
use ir_form::Unit;
use rv_alloc::Assigned;
use rv_image::Image;
use std::alloc::Global;
use tu_agree::{Both, Follows, Pass};
use tu_base::Memory;

/// From region code to assigned code, by `Flat` and `Assign`.
pub struct Middle;

impl Pass for Middle {
    type Before = Unit;

    type After = Assigned;

    const SLOW: u64 = 1;

    const START: u64 = 0;

    ghost SLOW = { 1 };

    ghost START = { 0 };

    ghost meant_before = { region_meant };

    ghost meant_after = { assigned_meant };

    ghost bound = { Turns };

    ghost ready = { IsReadyUnit };

    ghost gives = { IsPlacedCode };

    #[tactic(auto, using(crate::proofs::Places::is_placed))]
    fn pass(alloc: Global, before: &Unit) -> Result<Assigned, Memory> {
        Both::<Flat, Assign>::pass(alloc, before)
    }
}

impl Follows<Middle> for Emit {
    ghost turns = { refl };

    ghost next = { λ before middle ready gives. gives.ready };

    ghost same = { λ middle. refl };

    ghost slow_fits = { lit< tt };

    ghost start_fits = { lit< tt };
}

/// From region code to an image, by `Middle` and `Emit`.
pub struct Chain;

impl Pass for Chain {
    type Before = Unit;

    type After = Image;

    const SLOW: u64 = 1;

    const START: u64 = 12;

    ghost SLOW = { 1 };

    ghost START = { 12 };

    ghost meant_before = { region_meant };

    ghost meant_after = { image_meant };

    ghost bound = { Instructions };

    ghost ready = { IsReadyUnit };

    ghost gives = { IsImageOfUnit };

    #[tactic(auto, using(crate::proofs::Places::is_image))]
    fn pass(alloc: Global, before: &Unit) -> Result<Image, Memory> {
        Both::<Middle, Emit>::pass(alloc, before)
    }
}

/// The image of a unit, which does what the unit does. It runs as many instructions as that costs and
/// 12 more, at most. It fails only for want of memory.
pub fn image(alloc: Global, unit: &Unit) -> Result<Image, Memory>
    requires { IsReadyUnit unit.now }
    ensures keeps { let meant = region_meant unit.now in
        IfOk result (λ image. KeepsInstructions 1 12 meant (image_meant image)) }
    ensures code { IfOk result (IsImageOfUnit unit.now) }
{
    Chain::pass(alloc, unit)
}
