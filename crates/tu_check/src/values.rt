// Values and conditions that are not built.
ghost use Rattle.std.specs.Prelude.{◌≡◌};
ghost use Rattle.grammar.specs.Tree.{repeated};
ghost use Rattle.tu_expr.specs.Views.{multiplied, multiplied_view};
ghost use Rattle.tu_check.specs.Built.{are_times, is_comparing, unbuilt, unbuilt_sum, unbuilt_term, unbuilt_prefix, unbuilt_path, unbuilt_comparison, unbuilt_condition};

use crate::declared::Declared;
use tu_base::Line;
use tu_expr::{
    Compare, Expr, Multiplication, Path, Prefix, PrimaryForm, Relation, RelationKind, Sum, Term,
    compare_of, primary_of, sum_of,
};

fn are_times(factors: &[(Multiplication, Prefix)]) -> bool
    ensures { result ≡ are_times (repeated multiplied multiplied_view factors.now) }
{
    for (operator, _) in factors {
        if *operator != Multiplication::Times {
            return false;
        }
    }
    true
}

fn is_comparing(relation: &Relation) -> bool
    ensures { result ≡ is_comparing relation.now }
{
    match relation.kind {
        RelationKind::In | RelationKind::NotIn => false,
        RelationKind::Equal
        | RelationKind::NotEqual
        | RelationKind::Less
        | RelationKind::Greater
        | RelationKind::LessOrEqual
        | RelationKind::GreaterOrEqual => true,
    }
}

/// The line of a path, where it is not a declared name alone.
pub fn unbuilt_path(declared: &Declared, path: &Path) -> Option<Line>
    ensures { result ≡ unbuilt_path declared.now path.now }
{
    if path.steps.is_empty() && declared.contains(path.root.text.as_slice()) {
        None
    } else {
        Some(path.at.line)
    }
}

/// The line of the first form in a value that is not built.
#[cycle(built)]
#[tactic(auto, using(crate::proofs::Levels::by_sum))]
pub fn unbuilt(declared: &Declared, expr: &Expr) -> Option<Line>
    ensures { result ≡ unbuilt declared.now expr.now }
{
    match sum_of(expr) {
        Err(line) => Some(line),
        Ok(sum) => unbuilt_sum(declared, sum),
    }
}

#[cycle(built)]
fn unbuilt_sum(declared: &Declared, sum: &Sum) -> Option<Line>
    ensures { result ≡ unbuilt_sum declared.now sum.now }
{
    if let Some(line) = unbuilt_term(declared, &sum.first) {
        return Some(line);
    }
    for (_, term) in sum.more.as_slice() {
        if let Some(line) = unbuilt_term(declared, term) {
            return Some(line);
        }
    }
    None
}

#[cycle(built)]
fn unbuilt_term(declared: &Declared, term: &Term) -> Option<Line>
    ensures { result ≡ unbuilt_term declared.now term.now }
{
    if !are_times(term.more.as_slice()) {
        return Some(term.at.line);
    }
    if let Some(line) = unbuilt_prefix(declared, &term.first) {
        return Some(line);
    }
    for (_, factor) in term.more.as_slice() {
        if let Some(line) = unbuilt_prefix(declared, factor) {
            return Some(line);
        }
    }
    None
}

#[cycle(built)]
#[tactic(auto, using(crate::proofs::Levels::by_primary, crate::proofs::Levels::brackets_alone))]
fn unbuilt_prefix(declared: &Declared, prefix: &Prefix) -> Option<Line>
    ensures { result ≡ unbuilt_prefix declared.now prefix.now }
{
    match primary_of(prefix) {
        Err(line) => Some(line),
        Ok(primary) => match &primary.form {
            PrimaryForm::Number(_) => None,
            PrimaryForm::Path(path) => unbuilt_path(declared, path),
            PrimaryForm::Brackets(inner) => unbuilt(declared, inner.get()),
            PrimaryForm::True | PrimaryForm::False | PrimaryForm::Text(..) | PrimaryForm::Nil(_) =>
                Some(primary.at.line),
        },
    }
}

fn unbuilt_comparison(declared: &Declared, compare: &Compare) -> Option<Line>
    ensures { result ≡ unbuilt_comparison declared.now compare.now }
{
    if compare.more.len() == 1 {
        if let Some((relation, second)) = compare.more.get(0) {
            if is_comparing(relation) {
                return unbuilt_sum(declared, &compare.first).or(unbuilt_sum(declared, second));
            }
        }
    }
    Some(compare.at.line)
}

/// The line of the first form in a condition that is not built.
#[tactic(auto, using(crate::proofs::Levels::by_compare))]
pub fn unbuilt_condition(declared: &Declared, expr: &Expr) -> Option<Line>
    ensures { result ≡ unbuilt_condition declared.now expr.now }
{
    match compare_of(expr) {
        Err(line) => Some(line),
        Ok(compare) => unbuilt_comparison(declared, compare),
    }
}
