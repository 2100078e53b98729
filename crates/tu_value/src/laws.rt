ghost use Rattle.tu_value.specs.Laws.{DifferenceMeets, FetchMeets, FixedAreGiven, LessMeets, LiteralMeets, MoreMeets, NumberIsGiven, ProductMeets, RelationsHold, StoreKeeps, StoreRuns, SumMeets, UnsetRuns, WordsFit};

/// What a routine begins with, and ints as they are written in the program.
pub fn constants_are_given()
    ensures fixed { FixedAreGiven }
    ensures literal { LiteralMeets }
{}

/// What is stored is read again, and what was not stored raises an exception.
pub fn values_are_kept()
    ensures fetch { FetchMeets }
    ensures store { StoreRuns }
    ensures unset { UnsetRuns }
    ensures kept { StoreKeeps }
    ensures words { WordsFit }
{}

/// The number of an int, as the machine has numbers.
#[tactic(auto, using(crate::proofs::Leaves::number_is_given))]
pub fn numbers_are_given()
    ensures { NumberIsGiven }
{}

/// The pieces of the operators give what the operators answer.
pub fn operators_meet()
    ensures sum { SumMeets }
    ensures difference { DifferenceMeets }
    ensures product { ProductMeets }
    ensures more { MoreMeets }
    ensures less { LessMeets }
{}

/// What a relation says of two ints is what its comparison says of their words.
#[tactic(auto, using(crate::proofs::Comparing::relations_hold))]
pub fn relations_hold()
    ensures { RelationsHold }
{}
