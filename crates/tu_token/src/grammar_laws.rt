ghost use Rattle.std.specs.Prelude.{◌≡◌, ℕ, ◌⊎◌};
ghost use Rattle.grammar.specs.Grammar.{IsLl1};
ghost use Rattle.tu_token.specs.Printed.{SpellsTheSame};
ghost use Rattle.tu_token.specs.Rules.{r-program};
ghost use Rattle.tu_token.specs.Syntax.{IsPlaced, IsSyntaxFault, Of, Spells};
ghost use Rattle.tu_token.specs.Table.{table};
ghost use Rattle.tu_token.specs.TokenList.{TokenList};

/// One token ahead decides, by the table.
#[tactic(auto, using(crate::proofs::Decides::decides))]
pub fn one_token_decides()
    ensures { IsLl1 table }
{}

/// The table spells the same lists of tokens as the grammar that is printed, for the program, each
/// rule and each part of a rule.
#[tactic(auto, using(crate::proofs::Reprinted::same_lists))]
pub fn table_is_as_printed()
    ensures { SpellsTheSame }
{}

/// Tokens are spelled by at most one tree that is placed at them.
#[tactic(auto, using(crate::proofs::Programs::one_program))]
pub fn one_tree()
    ensures { (tokens : TokenList) (x y : Of r-program) → Spells x tokens → IsPlaced x tokens → Spells y tokens → IsPlaced y tokens → x ≡ y }
{}

/// A syntax fault has one place, and tokens with one are spelled by no tree.
pub fn one_syntax_fault()
    ensures place { (tokens : TokenList) (j k : ℕ) → IsSyntaxFault tokens j → IsSyntaxFault tokens k → j ≡ k }
    ensures no_tree { (tokens : TokenList) (k : ℕ) (x : Of r-program) → IsSyntaxFault tokens k → Spells x tokens → ⊥ }
{}

/// Tokens are spelled by a tree that is placed at them, or they have a syntax fault.
pub fn tree_or_fault()
    ensures { (tokens : TokenList) → ((x : Of r-program) × Spells x tokens × IsPlaced x tokens) ⊎ ((k : ℕ) × IsSyntaxFault tokens k) }
{}
