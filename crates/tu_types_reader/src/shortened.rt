ghost use Rattle.std.specs.Prelude.{◌≡◌, IfOk, MatchResult};
ghost use Rattle.std.specs.Option.{option_copied};
ghost use Rattle.tu_types_reader.specs.Shortened.{expr_path, or_path, and_path, not_path, compare_path, sum_path, term_path, prefix_path, power_path, primary_path, name_of};
ghost use Rattle.tu_reader.specs.declared.stop.Stop.TheVariants.{Memory};

use std::alloc::Global;
use tu_base::Bytes;
use tu_reader::Stop;
use tu_tree::{
    And, Compare, Expr, Leaf, Name, Not, Or, Path, Power, Prefix, Primary, PrimaryForm, Step, Sum,
    Term,
};

// The path that an expression is, where it is no more than that.
fn expr_path(expr: &Expr) -> Option<&Path>
    ensures { option_copied result ≡ expr_path expr.now }
{
    let path = or_path(&expr.first)?;
    if expr.more.is_empty() {
        Some(path)
    } else {
        None
    }
}

fn or_path(or: &Or) -> Option<&Path>
    ensures { option_copied result ≡ or_path or.now }
{
    let path = and_path(&or.first)?;
    if or.more.is_empty() { Some(path) } else { None }
}

fn and_path(and: &And) -> Option<&Path>
    ensures { option_copied result ≡ and_path and.now }
{
    let path = not_path(&and.first)?;
    if and.more.is_empty() {
        Some(path)
    } else {
        None
    }
}

fn not_path(not: &Not) -> Option<&Path>
    ensures { option_copied result ≡ not_path not.now }
{
    let path = compare_path(&not.compare)?;
    if not.nots == 0 { Some(path) } else { None }
}

fn compare_path(compare: &Compare) -> Option<&Path>
    ensures { option_copied result ≡ compare_path compare.now }
{
    let path = sum_path(&compare.first)?;
    if compare.more.is_empty() {
        Some(path)
    } else {
        None
    }
}

fn sum_path(sum: &Sum) -> Option<&Path>
    ensures { option_copied result ≡ sum_path sum.now }
{
    let path = term_path(&sum.first)?;
    if sum.more.is_empty() {
        Some(path)
    } else {
        None
    }
}

fn term_path(term: &Term) -> Option<&Path>
    ensures { option_copied result ≡ term_path term.now }
{
    let path = prefix_path(&term.first)?;
    if term.more.is_empty() {
        Some(path)
    } else {
        None
    }
}

fn prefix_path(prefix: &Prefix) -> Option<&Path>
    ensures { option_copied result ≡ prefix_path prefix.now }
{
    let path = power_path(&prefix.power)?;
    if prefix.signs.is_empty() {
        Some(path)
    } else {
        None
    }
}

fn power_path(power: &Power) -> Option<&Path>
    ensures { option_copied result ≡ power_path power.now }
{
    let path = primary_path(&power.first)?;
    if power.more.is_empty() {
        Some(path)
    } else {
        None
    }
}

fn primary_path(primary: &Primary) -> Option<&Path>
    ensures { option_copied result ≡ primary_path primary.now }
{
    match &primary.form {
        PrimaryForm::Path(path) => Some(path),
        PrimaryForm::Number(_)
        | PrimaryForm::True
        | PrimaryForm::False
        | PrimaryForm::Brackets(_)
        | PrimaryForm::Text(_, _)
        | PrimaryForm::Nil(_) => None,
    }
}

fn copied(alloc: Global, leaf: &Leaf) -> Result<Leaf, Stop>
    ensures { MatchResult result (λ copy. copy ≡ leaf.now) (λ e. e ≡ Memory) }
{
    Ok(Leaf {
        text: Bytes::from_slice(alloc, leaf.text.as_slice())?,
        start: leaf.start,
        line: leaf.line,
    })
}

/// The name that an expression is, where it is no more than that.
pub fn name_of(alloc: Global, expr: &Expr) -> Result<Option<Name>, Stop>
    ensures { MatchResult result (λ name. name ≡ name_of expr.now) (λ e. e ≡ Memory) }
{
    let Some(path) = expr_path(expr) else {
        return Ok(None);
    };
    match path.steps.as_slice() {
        [] => Ok(Some(Name {
            at: expr.at,
            first: copied(alloc, &path.root)?,
            second: None,
        })),
        [Step::Field(name)] => Ok(Some(Name {
            at: expr.at,
            first: copied(alloc, &path.root)?,
            second: Some(copied(alloc, name)?),
        })),
        [Step::Arguments(_)] => Ok(None),
        [_, _, ..] => Ok(None),
    }
}
