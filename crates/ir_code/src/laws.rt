ghost use Rattle.ir_code.specs.Laws.{ChoiceRuns, OnceRuns, RaiseRuns, RepeatRuns, RunsInOrder};

/// Operations run in their order.
#[tactic(auto, using(crate::proofs::Running::runs_in_order))]
pub fn code_runs_in_order()
    ensures { RunsInOrder }
{}

/// A choice runs the operations that its relation chooses.
#[tactic(auto, using(crate::proofs::Running::choice_runs, crate::proofs::Running::raise_runs))]
pub fn choices_run()
    ensures choice { ChoiceRuns }
    ensures raise { RaiseRuns }
{}

/// Loops run their operations round by round.
#[tactic(auto, using(crate::proofs::Running::once_runs, crate::proofs::Running::repeat_runs))]
pub fn loops_run()
    ensures once { OnceRuns }
    ensures repeat { RepeatRuns }
{}
