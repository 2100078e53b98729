ghost use Rattle.tu_agree.specs.Laws.{GoingCountsAll, KeptIsAgreed, MeaningIsRun, RunIsMeant};

/// The run of an image that agrees with a meaning, where it has ended or was stopped, did what is meant.
pub fn run_is_meant()
    ensures { RunIsMeant }
{}

/// The run of an image that agrees with a meaning, where that is over within (n - 10,000) / 1,000 units,
/// is over within n instructions and did what is meant.
pub fn meaning_is_run()
    ensures { MeaningIsRun }
{}

/// An image agrees with a program where the passes between them keep the meaning, at a factor of at most
/// 1,000 and a start of at most 10,000.
pub fn kept_is_agreed()
    ensures { KeptIsAgreed }
{}

/// The run of an image that is not over costs one for each instruction that it was given.
pub fn going_counts_all()
    ensures { GoingCountsAll }
{}
