ghost use Rattle.rv_runs.specs.Laws.{RunShows, RunGoesOn, RunIsUnderway, RunIsOver, TraceGrows};

/// The run of so many instructions is how the machine stands after them.
#[tactic(auto, using(crate::proofs::Stretches::run_shows))]
pub fn run_shows()
    ensures { RunShows }
{}

/// Where the machine comes somewhere, its run goes on from there, and until then it is underway.
#[tactic(auto, using(crate::proofs::Stretches::goes_on, crate::proofs::Stretches::underway))]
pub fn run_goes_on()
    ensures goes_on { RunGoesOn }
    ensures underway { RunIsUnderway }
{}

/// Where its host ends the run, the run is over with just so many instructions.
#[tactic(auto, using(crate::proofs::Stretches::run_is_over))]
pub fn run_is_over()
    ensures { RunIsOver }
{}

/// With more instructions the trace only grows.
#[tactic(auto, using(crate::proofs::Stretches::trace_grows))]
pub fn trace_grows()
    ensures { TraceGrows }
{}
