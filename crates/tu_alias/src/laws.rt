ghost use Rattle.tu_alias.specs.Laws.{CallsAreApart, LentIsUnreached, ReferenceIsCopying};
ghost use Rattle.tu_alias.specs.Unseen.{NothingLentIsSeen};
ghost use Rattle.tu_core.specs.Core.{Program};

/// By reference equals by copying: a program that is well formed and keeps the rules has the same
/// trace, end, units and log in the reference meaning, on each input, with any files and within
/// each number of turns.
pub fn reference_is_copying()
    ensures { (program : Program) → ReferenceIsCopying program }
{}

/// At each call of a run of such a program, once its tests have found nothing, no two lent places
/// overlap of which one is `var`.
pub fn calls_are_apart()
    ensures { (program : Program) → CallsAreApart program }
{}

/// At each call in such a program the callee neither reads nor changes by its own names what it is lent
/// as `var`, nor changes what is lent to a constant formal.
pub fn lent_is_unreached()
    ensures { (program : Program) → LentIsUnreached program }
{}

/// What a call is lent its callee sees by way of its formals alone: a variable or collection that it
/// neither reads nor changes, itself or by calls, may hold anything, and keeps it.
pub fn nothing_lent_is_seen()
    ensures { (program : Program) → NothingLentIsSeen program }
{}
