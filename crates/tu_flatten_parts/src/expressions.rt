// Expressions.
ghost use Rattle.std.specs.Prelude.{IfOk};
ghost use Rattle.tu_token.specs.Rules.{r-expr};
ghost use Rattle.tu_expr.specs.Parts.{any_listing, listing};
ghost use Rattle.tu_expr.specs.Views.{sign_view, multiplication_view, step_view};
ghost use Rattle.tu_flatten_parts.specs.Writes.{Writes};

use crate::pieces::Pieces;
use sqlite_items::Items;
use tu_base::Memory;
use tu_tree::{
    And, Arg, ArgForm, Class, Compare, Expr, Multiplication, Not, Or, Path, Place, PlaceForm,
    Power, Prefix, Primary, PrimaryForm, Relation, RelationKind, Sign, Step, Sum, Term,
};

fn write_relation(relation: &Relation, out: &mut Pieces) -> Result<(), Memory>
    ensures { IfOk result (λ _. Writes relation.now out.old out.new) }
{
    match relation.kind {
        RelationKind::Equal => out.word(Class::SignEqual),
        RelationKind::NotEqual => out.word(Class::SignNotEqual),
        RelationKind::Less => out.word(Class::SignLess),
        RelationKind::Greater => out.word(Class::SignGreater),
        RelationKind::LessOrEqual => out.word(Class::SignLessOrEqual),
        RelationKind::GreaterOrEqual => out.word(Class::SignGreaterOrEqual),
        RelationKind::In => out.word(Class::WordIn),
        RelationKind::NotIn => {
            out.word(Class::WordNot)?;
            out.word(Class::WordIn)
        }
    }
}

fn write_sign(sign: Sign, out: &mut Pieces) -> Result<(), Memory>
    ensures { IfOk result (λ _. Writes (sign_view sign) out.old out.new) }
{
    match sign {
        Sign::Plus => out.word(Class::SignPlus),
        Sign::Minus => out.word(Class::SignMinus),
    }
}

fn write_multiplication(operator: Multiplication, out: &mut Pieces) -> Result<(), Memory>
    ensures { IfOk result (λ _. Writes (multiplication_view operator) out.old out.new) }
{
    match operator {
        Multiplication::Times => out.word(Class::SignStar),
        Multiplication::Div => out.word(Class::WordDiv),
        Multiplication::Mod => out.word(Class::WordMod),
    }
}

/// Adds an expression.
#[cycle(expr)]
pub fn write_expr(expr: &Expr, out: &mut Pieces) -> Result<(), Memory>
    ensures { IfOk result (λ _. Writes expr.now out.old out.new) }
{
    write_or(&expr.first, out)?;
    for x in expr.more.as_slice() {
        out.word(Class::SignImplies)?;
        write_or(x, out)?;
    }
    Ok(())
}

#[cycle(expr)]
fn write_or(or: &Or, out: &mut Pieces) -> Result<(), Memory>
    ensures { IfOk result (λ _. Writes or.now out.old out.new) }
{
    write_and(&or.first, out)?;
    for x in or.more.as_slice() {
        out.word(Class::WordOr)?;
        write_and(x, out)?;
    }
    Ok(())
}

#[cycle(expr)]
fn write_and(and: &And, out: &mut Pieces) -> Result<(), Memory>
    ensures { IfOk result (λ _. Writes and.now out.old out.new) }
{
    write_not(&and.first, out)?;
    for x in and.more.as_slice() {
        out.word(Class::WordAnd)?;
        write_not(x, out)?;
    }
    Ok(())
}

#[cycle(expr)]
fn write_not(not: &Not, out: &mut Pieces) -> Result<(), Memory>
    ensures { IfOk result (λ _. Writes not.now out.old out.new) }
{
    for _ in 0..not.nots {
        out.word(Class::WordNot)?;
    }
    write_compare(&not.compare, out)?;
    Ok(())
}

#[cycle(expr)]
fn write_compare(compare: &Compare, out: &mut Pieces) -> Result<(), Memory>
    ensures { IfOk result (λ _. Writes compare.now out.old out.new) }
{
    write_sum(&compare.first, out)?;
    for x in compare.more.as_slice() {
        write_relation(&x.0, out)?;
        write_sum(&x.1, out)?;
    }
    Ok(())
}

#[cycle(expr)]
fn write_sum(sum: &Sum, out: &mut Pieces) -> Result<(), Memory>
    ensures { IfOk result (λ _. Writes sum.now out.old out.new) }
{
    write_term(&sum.first, out)?;
    for x in sum.more.as_slice() {
        write_sign(x.0, out)?;
        write_term(&x.1, out)?;
    }
    Ok(())
}

#[cycle(expr)]
fn write_term(term: &Term, out: &mut Pieces) -> Result<(), Memory>
    ensures { IfOk result (λ _. Writes term.now out.old out.new) }
{
    write_prefix(&term.first, out)?;
    for x in term.more.as_slice() {
        write_multiplication(x.0, out)?;
        write_prefix(&x.1, out)?;
    }
    Ok(())
}

#[cycle(expr)]
fn write_prefix(prefix: &Prefix, out: &mut Pieces) -> Result<(), Memory>
    ensures { IfOk result (λ _. Writes prefix.now out.old out.new) }
{
    for x in prefix.signs.as_slice() {
        write_sign(*x, out)?;
    }
    write_power(&prefix.power, out)?;
    Ok(())
}

#[cycle(expr)]
fn write_power(power: &Power, out: &mut Pieces) -> Result<(), Memory>
    ensures { IfOk result (λ _. Writes power.now out.old out.new) }
{
    write_primary(&power.first, out)?;
    for x in power.more.as_slice() {
        out.word(Class::SignPower)?;
        write_primary(x, out)?;
    }
    Ok(())
}

#[cycle(expr)]
fn write_primary(primary: &Primary, out: &mut Pieces) -> Result<(), Memory>
    ensures { IfOk result (λ _. Writes primary.now out.old out.new) }
{
    match &primary.form {
        PrimaryForm::Number(number) => out.number(number),
        PrimaryForm::True => out.word(Class::WordTrue),
        PrimaryForm::False => out.word(Class::WordFalse),
        PrimaryForm::Path(path) => write_path(path, out),
        PrimaryForm::Brackets(inner) => {
            out.word(Class::SignLeftBracket)?;
            write_expr(inner.get(), out)?;
            out.word(Class::SignRightBracket)
        }
        PrimaryForm::Text(text, parts) => {
            out.text(text)?;
            for x in parts.as_slice() {
                out.word(Class::SignLeftBracket)?;
                write_arg(x, out)?;
                out.word(Class::SignRightBracket)?;
            }
            Ok(())
        }
        PrimaryForm::Nil(path) => {
            out.word(Class::WordNil)?;
            out.word(Class::SignLeftBracket)?;
            write_path(path, out)?;
            out.word(Class::SignRightBracket)
        }
    }
}

/// Adds a path.
#[cycle(expr)]
pub fn write_path(path: &Path, out: &mut Pieces) -> Result<(), Memory>
    ensures { IfOk result (λ _. Writes path.now out.old out.new) }
{
    out.name(&path.root)?;
    for x in path.steps.as_slice() {
        write_step(x, out)?;
    }
    Ok(())
}

#[cycle(expr)]
fn write_step(step: &Step, out: &mut Pieces) -> Result<(), Memory>
    ensures { IfOk result (λ _. Writes (step_view step.now) out.old out.new) }
{
    match step {
        Step::Field(name) => {
            out.word(Class::SignDot)?;
            out.name(name)
        }
        Step::Arguments(args) => {
            out.word(Class::SignLeftBracket)?;
            for (i, x) in args.as_slice().iter().enumerate() {
                out.separate(i)?;
                write_arg(x, out)?;
            }
            out.word(Class::SignRightBracket)
        }
    }
}

#[cycle(expr)]
fn write_arg(arg: &Arg, out: &mut Pieces) -> Result<(), Memory>
    ensures { IfOk result (λ _. Writes arg.now out.old out.new) }
{
    match &arg.form {
        ArgForm::One(place) => write_place(place, out),
        ArgForm::Part(from, to) => {
            write_place(from, out)?;
            out.word(Class::SignRange)?;
            write_place(to, out)
        }
        ArgForm::All => out.word(Class::WordAll),
    }
}

#[cycle(expr)]
fn write_place(place: &Place, out: &mut Pieces) -> Result<(), Memory>
    ensures { IfOk result (λ _. Writes place.now out.old out.new) }
{
    match &place.form {
        PlaceForm::Value(value) => write_expr(value, out),
        PlaceForm::Length => out.word(Class::SignStar),
        PlaceForm::LengthLess(term) => {
            out.word(Class::SignStar)?;
            out.word(Class::SignMinus)?;
            write_term(term, out)
        }
    }
}

/// Adds expressions with commas between, or nothing.
pub fn write_exprs(exprs: &Items<Expr>, out: &mut Pieces) -> Result<(), Memory>
    ensures { IfOk result (λ _. Writes (any_listing r-expr exprs.now) out.old out.new) }
{
    for (i, x) in exprs.as_slice().iter().enumerate() {
        out.separate(i)?;
        write_expr(x, out)?;
    }
    Ok(())
}

/// Adds expressions with commas between.
pub fn write_labels(first: &Expr, more: &Items<Expr>, out: &mut Pieces) -> Result<(), Memory>
    ensures { IfOk result (λ _. Writes (listing r-expr first.now more.now) out.old out.new) }
{
    write_expr(first, out)?;
    for x in more.as_slice() {
        out.word(Class::SignComma)?;
        write_expr(x, out)?;
    }
    Ok(())
}
