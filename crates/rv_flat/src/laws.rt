ghost use Rattle.rv_flat.specs.Units.{IsPaidWhereGoing, PaysForRounds};
ghost use Rattle.rv_flat.specs.declared.linear.Linear.{Linear as LinearCode};

/// The cost of a run is at least the turns and other rounds that have begun.
#[tactic(auto, using(crate::proofs::Spends::linear_spends))]
pub fn cost_covers_rounds()
    ensures { (linear : LinearCode) → PaysForRounds linear }
{}

/// A run that needs more than it was given costs at least all turns, or all other rounds.
#[tactic(auto, using(crate::proofs::Spends::linear_paid))]
pub fn going_is_paid()
    ensures { (linear : LinearCode) → IsPaidWhereGoing linear }
{}
