ghost use Rattle.std.specs.Prelude.{ℕ, IfOk};
ghost use Rattle.tu_agree.specs.Keep.{Bound, Keeps};
ghost use Rattle.tu_agree.specs.Outcomes.{CodeMeaning};

use std::alloc::Global;
use tu_base::Memory;

/// A pass of a compiler: from a code to one that means the same, at a bounded cost.
pub trait Pass {
    /// The code that the pass takes.
    type Before;

    /// The code that it makes.
    type After: Drop;

    /// The factor in the cost of what it makes.
    const SLOW: u64;

    /// What that costs besides, once.
    const START: u64;

    /// These numbers, as contracts see them.
    ghost SLOW: { ℕ };

    ghost START: { ℕ };

    /// What a code means, before the pass and after it.
    ghost meant_before: { Self.Before → CodeMeaning };

    ghost meant_after: { Self.After → CodeMeaning };

    /// Whether turns or instructions bound a run of what the pass makes: the form of its law.
    ghost bound: { Bound };

    /// What the pass needs of a code.
    ghost ready: { Self.Before → Type 0 };

    /// What else holds of a code and what is made of it.
    ghost gives: { Self.Before → Self.After → Type 0 };

    /// Makes the code, or finds no memory for that.
    fn pass(alloc: Global, before: &Self::Before) -> Result<Self::After, Memory>
        requires { ready before.now }
        ensures keep { let before = meant_before before.now in
            IfOk result (λ after. Keeps bound SLOW START before (meant_after after)) }
        ensures gives { IfOk result (λ after. gives before.now after) };
}
