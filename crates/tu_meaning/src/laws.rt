ghost use Rattle.tu_core.specs.Core.{Program};
ghost use Rattle.tu_meaning.specs.Laws.{KeepsTurns, NeverStuck};
ghost use Rattle.tu_meaning.specs.References.{Cells, by_reference, unset_cells};
ghost use Rattle.tu_meaning.specs.Store.{Store, by_copying, unset_store};

/// What holds of the meaning of each program in the number of turns: a run that is over stays the
/// same, a trace and a log only go on, units do not fall, and a run goes on only where all its
/// turns have begun.
pub fn meaning_keeps_turns()
    ensures { (program : Program) → KeepsTurns Store by_copying unset_store program }
{}

/// A rule says what comes at each step of a well formed program: on no input, with no files and
/// within no number of turns is it stuck.
pub fn well_formed_is_never_stuck()
    ensures { (program : Program) → NeverStuck Store by_copying unset_store program }
{}

/// The same holds of the reference meaning.
pub fn reference_meaning_keeps_turns()
    ensures { (program : Program) → KeepsTurns Cells by_reference unset_cells program }
{}

/// Nor is a well formed program ever stuck in the reference meaning.
pub fn well_formed_references_are_never_stuck()
    ensures { (program : Program) → NeverStuck Cells by_reference unset_cells program }
{}
