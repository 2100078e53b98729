ghost use Rattle.std.specs.Prelude.{◌≡◌, ◌+◌, ◌*◌, ◌<◌, ◌≤◌, ◌^◌, IfOk};
ghost use Rattle.rv_image.specs.Picture.{Picture};
ghost use Rattle.rv_image.specs.Streams.{Folder};
ghost use Rattle.tu_agree.specs.Agrees.{Agrees};
ghost use Rattle.tu_agree.specs.Keep.{Instructions, Turns};
ghost use Rattle.tu_agree.specs.Outcomes.{image_meant, program_meant};
ghost use Rattle.tu_tree_meaning.specs.Laws.{Meaning};

use crate::Pass;
use std::alloc::Global;
use std::marker::PhantomData;
use tu_base::Memory;

/// A pass that can follow the pass P, as it takes what P makes.
pub trait Follows<P: Pass>: Pass<Before = P::After> {
    /// What P makes is bounded by turns.
    ghost turns: { P.bound ≡ Turns };

    /// It is ready for this pass.
    ghost next: { (before : P.Before) (middle : P.After) →
        P.ready before → P.gives before middle → Self.ready middle };

    /// Both passes mean the same by it.
    ghost same: { (middle : P.After) → P.meant_after middle ≡ Self.meant_before middle };

    /// The numbers of both passes together fit their type.
    ghost slow_fits: { Self.SLOW * P.SLOW < 2 ^ 64 };

    ghost start_fits: { Self.SLOW * P.START + Self.START < 2 ^ 64 };
}

/// The pass P and then the pass Q, as one pass. A longer chain is `Both<P, Both<Q, R>>`, where Q follows P
/// and R follows Q.
pub struct Both<P, Q> {
    first: PhantomData<P>,
    second: PhantomData<Q>,
}

impl<P: Pass, Q: Follows<P>> Pass for Both<P, Q> {
    type Before = P::Before;

    type After = Q::After;

    const SLOW: u64 = Q::SLOW * P::SLOW;

    const START: u64 = Q::SLOW * P::START + Q::START;

    ghost SLOW = { Q.SLOW * P.SLOW };

    ghost START = { Q.SLOW * P.START + Q.START };

    ghost meant_before = { P.meant_before };

    ghost meant_after = { Q.meant_after };

    ghost bound = { Q.bound };

    ghost ready = { P.ready };

    ghost gives = { λ before after. (middle : P.After) × P.gives before middle × Q.gives middle after };

    fn pass(alloc: Global, before: &P::Before) -> Result<Q::After, Memory> {
        let middle = P::pass(alloc, before)?;
        Q::pass(alloc, &middle)
    }
}

/// Makes an image that agrees with the program, by a pass or a chain of passes from the one to the
/// other. What is made need not be an image itself: `picture` says which one it stands for.
pub fn compile<C: Pass>(alloc: Global, program: &C::Before) -> Result<C::After, Memory>
    requires ready { C.ready program.now }
    requires instructions { C.bound ≡ Instructions }
    requires slow { C.SLOW ≤ 1000 }
    requires start { C.START ≤ 10000 }
    ensures agrees { (meaning : Meaning Folder) (picture : C.After → Picture) →
        C.meant_before program.now ≡ program_meant meaning →
        ((made : C.After) → C.meant_after made ≡ image_meant (picture made)) →
        IfOk result (λ made. Agrees meaning (picture made)) }
    ensures gives { IfOk result (λ made. C.gives program.now made) }
{
    C::pass(alloc, program)
}
