ghost use Rattle.std.specs.Prelude.{ℕ};
ghost use Rattle.grammar.specs.Counted.{NumbersArePaid};
ghost use Rattle.grammar.specs.Description.{Description};
ghost use Rattle.grammar.specs.Grammar.{Grammar, IsLl1};
ghost use Rattle.grammar.specs.Laws.{FaultyIsNotSpelled, Finishes, HasOneDerivation, HasOneFault, HasOneTree, IsMarkedAgain, IsSpelledOrFaulty, PrintIsRead, ReadIsSpelled, RuleIsRead, StopsAtFault};

/// The reader always ends.
#[tactic(auto, using(crate::proofs::Level::read_finishes))]
pub fn reading_finishes<R>()
    ensures { (body : R → Description R) (g : Grammar body) → IsLl1 g → Finishes g }
{}

/// What is read is spelled by the lexemes before those that are left.
#[tactic(auto, using(crate::proofs::Places::is_spelled))]
pub fn read_is_spelled<R>()
    ensures { (body : R → Description R) (g : Grammar body) → IsLl1 g → ReadIsSpelled g }
{}

/// What a derivation prints is read again as it.
#[tactic(auto, using(crate::proofs::Complete::read_again, crate::proofs::Complete::rule_read_again))]
pub fn print_is_read<R>()
    ensures before { (body : R → Description R) (g : Grammar body) → IsLl1 g → PrintIsRead g }
    ensures whole { (body : R → Description R) (g : Grammar body) → IsLl1 g → RuleIsRead g }
{}

/// A list has one derivation at most.
#[tactic(auto, using(crate::proofs::Places::one_derivation))]
pub fn one_derivation<R>()
    ensures { (body : R → Description R) (g : Grammar body) → IsLl1 g → HasOneDerivation g }
{}

/// The least place of a fault is where the reader stops.
pub fn stops_at_fault<R>()
    ensures { (body : R → Description R) (g : Grammar body) → IsLl1 g → StopsAtFault g }
{}

/// A list is what a derivation prints, or it has a fault.
pub fn spelled_or_faulty<R>()
    ensures { (body : R → Description R) (g : Grammar body) → IsLl1 g → IsSpelledOrFaulty g }
{}

/// A list has one place of a fault at most, and one with a fault is what no derivation prints.
pub fn one_fault<R>()
    ensures place { (body : R → Description R) → HasOneFault body }
    ensures no_print { (body : R → Description R) → FaultyIsNotSpelled body }
{}

/// A list of tokens at given places has one tree at most.
#[tactic(auto, using(crate::proofs::Standing::one_tree))]
pub fn one_tree<R>()
    ensures { (body : R → Description R) (g : Grammar body) → IsLl1 g → HasOneTree g }
{}

/// Each derivation has a tree with its marks.
pub fn marked_again<R>()
    ensures { (body : R → Description R) (g : Grammar body) → IsMarkedAgain g }
{}

/// The numbers of a tree are at most some for each lexeme, and the cost of its rule.
pub fn numbers_are_paid<R>()
    ensures { (body : R → Description R) (g : Grammar body) → IsLl1 g → (most : ℕ) (costs : R → ℕ) → NumbersArePaid g most costs }
{}
