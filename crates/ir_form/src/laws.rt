ghost use Rattle.std.specs.Prelude.{◌≤◌};
ghost use Rattle.tu_base.specs.declared.limits.TheConstants.{MOST_GLOBAL_WORDS};
ghost use Rattle.ir_form.specs.declared.unit.Unit.{Unit as RegionUnit};
ghost use Rattle.ir_form.specs.Lawful.{IsSoundUnit};
ghost use Rattle.ir_form.specs.Units.{IsPaidWhereGoing, IsSteady, PaysForRounds};
ghost use Rattle.ir_form.specs.Valid.{IsValid};

/// The cost of a run is at least the turns and other rounds that have begun.
#[tactic(auto, using(crate::proofs::Spends::unit_spends))]
pub fn cost_covers_rounds()
    ensures { (unit : RegionUnit) → PaysForRounds unit }
{}

/// A run that needs more than it was given costs at least all turns, or all other rounds.
#[tactic(auto, using(crate::proofs::Spends::unit_paid))]
pub fn going_is_paid()
    ensures { (unit : RegionUnit) → IsPaidWhereGoing unit }
{}

/// A valid unit is lawful but for what its runs do.
pub fn valid_is_sound()
    ensures { (unit : RegionUnit) → IsValid unit → unit.globals ≤ MOST_GLOBAL_WORDS → IsSoundUnit unit }
{}

/// A run that needs no more than it was given is the same with more other rounds.
#[tactic(auto, using(crate::proofs::Steady::unit_steady))]
pub fn run_is_steady()
    ensures { (unit : RegionUnit) → IsSteady unit }
{}
