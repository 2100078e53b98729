ghost use Rattle.std.specs.Prelude.{◌≡◌, ◌<◌, Ok, Err, IfOk, MatchResult};
ghost use Rattle.grammar.specs.Tree.{height};
ghost use Rattle.tu_expr.specs.Levels.{compare_of, primary_of, sum_of};

use crate::{Compare, Expr, Prefix, Primary, Sum};
use tu_base::Line;

/// The comparison that an expression is, or the line of the outermost operator above it.
#[tactic(auto, using(crate::proofs::Operators::expr_more, crate::proofs::Operators::or_more, crate::proofs::Operators::and_more))]
pub fn compare_of(expr: &Expr) -> Result<&Compare, Line>
    ensures is { MatchResult result (λ compare. compare_of expr.now ≡ Ok compare.now) (λ line. compare_of expr.now ≡ Err line) }
    ensures within { IfOk result (λ compare. height compare.now < height expr.now) }
{
    if !expr.more.is_empty() {
        return Err(expr.at.line);
    }
    let or = &expr.first;
    if !or.more.is_empty() {
        return Err(or.at.line);
    }
    let and = &or.first;
    if !and.more.is_empty() {
        return Err(and.at.line);
    }
    let not = &and.first;
    if not.nots > 0 {
        return Err(not.at.line);
    }
    Ok(&not.compare)
}

/// The sum that an expression is, or the line of the outermost operator above it.
#[tactic(auto, using(crate::proofs::Operators::by_compare, crate::proofs::Operators::compare_more))]
pub fn sum_of(expr: &Expr) -> Result<&Sum, Line>
    ensures is { MatchResult result (λ sum. sum_of expr.now ≡ Ok sum.now) (λ line. sum_of expr.now ≡ Err line) }
    ensures within { IfOk result (λ sum. height sum.now < height expr.now) }
{
    let compare = compare_of(expr)?;
    if !compare.more.is_empty() {
        return Err(compare.at.line);
    }
    Ok(&compare.first)
}

/// What a factor is that has no operators, or the line of its signs, or of its power.
#[tactic(auto, using(crate::proofs::Operators::prefix_more, crate::proofs::Operators::power_more))]
pub fn primary_of(prefix: &Prefix) -> Result<&Primary, Line>
    ensures is { MatchResult result (λ primary. primary_of prefix.now ≡ Ok primary.now) (λ line. primary_of prefix.now ≡ Err line) }
    ensures within { IfOk result (λ primary. height primary.now < height prefix.now) }
{
    if !prefix.signs.is_empty() {
        return Err(prefix.at.line);
    }
    let power = &prefix.power;
    if !power.more.is_empty() {
        return Err(power.at.line);
    }
    Ok(&power.first)
}
