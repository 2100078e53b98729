// The names in expressions.
ghost use Rattle.std.specs.Prelude.{◌≡◌, OnOk};
ghost use Rattle.grammar.specs.Tree.{repeated};
ghost use Rattle.tu_expr.specs.Leaves.{leaf_view};
ghost use Rattle.tu_expr.specs.Views.{step_view, steps as steps_of};
ghost use Rattle.tu_scope_parts.specs.Adds.{Adds};
ghost use Rattle.tu_scope_parts.specs.Walk.{root_use};

use crate::events::Events;
use crate::names::name;
use tu_base::Memory;
use tu_expr::{
    And, Arg, ArgForm, Compare, Expr, Leaf, Not, Or, Path, Place, PlaceForm, Power, Prefix,
    Primary, PrimaryForm, Step, Sum, Term,
};
use tu_scope_rules::{Context, Event};
use tu_token::Class;

/// Adds the events of an expression.
#[cycle(expr)]
pub fn walk_expr<'a>(context: Context, expr: &'a Expr, out: &mut Events<'a>) -> Result<(), Memory>
    ensures { OnOk result (Adds context expr.now out.old out.new) }
{
    walk_or(context, &expr.first, out)?;
    for x in expr.more.as_slice() {
        walk_or(context, x, out)?;
    }
    Ok(())
}

#[cycle(expr)]
fn walk_or<'a>(context: Context, or: &'a Or, out: &mut Events<'a>) -> Result<(), Memory>
    ensures { OnOk result (Adds context or.now out.old out.new) }
{
    walk_and(context, &or.first, out)?;
    for x in or.more.as_slice() {
        walk_and(context, x, out)?;
    }
    Ok(())
}

#[cycle(expr)]
fn walk_and<'a>(context: Context, and: &'a And, out: &mut Events<'a>) -> Result<(), Memory>
    ensures { OnOk result (Adds context and.now out.old out.new) }
{
    walk_not(context, &and.first, out)?;
    for x in and.more.as_slice() {
        walk_not(context, x, out)?;
    }
    Ok(())
}

#[cycle(expr)]
fn walk_not<'a>(context: Context, not: &'a Not, out: &mut Events<'a>) -> Result<(), Memory>
    ensures { OnOk result (Adds context not.now out.old out.new) }
{
    walk_compare(context, &not.compare, out)?;
    Ok(())
}

#[cycle(expr)]
fn walk_compare<'a>(
    context: Context,
    compare: &'a Compare,
    out: &mut Events<'a>,
) -> Result<(), Memory>
    ensures { OnOk result (Adds context compare.now out.old out.new) }
{
    walk_sum(context, &compare.first, out)?;
    for x in compare.more.as_slice() {
        walk_sum(context, &x.1, out)?;
    }
    Ok(())
}

#[cycle(expr)]
fn walk_sum<'a>(context: Context, sum: &'a Sum, out: &mut Events<'a>) -> Result<(), Memory>
    ensures { OnOk result (Adds context sum.now out.old out.new) }
{
    walk_term(context, &sum.first, out)?;
    for x in sum.more.as_slice() {
        walk_term(context, &x.1, out)?;
    }
    Ok(())
}

#[cycle(expr)]
fn walk_term<'a>(context: Context, term: &'a Term, out: &mut Events<'a>) -> Result<(), Memory>
    ensures { OnOk result (Adds context term.now out.old out.new) }
{
    walk_prefix(context, &term.first, out)?;
    for x in term.more.as_slice() {
        walk_prefix(context, &x.1, out)?;
    }
    Ok(())
}

#[cycle(expr)]
fn walk_prefix<'a>(context: Context, prefix: &'a Prefix, out: &mut Events<'a>) -> Result<(), Memory>
    ensures { OnOk result (Adds context prefix.now out.old out.new) }
{
    walk_power(context, &prefix.power, out)?;
    Ok(())
}

#[cycle(expr)]
fn walk_power<'a>(context: Context, power: &'a Power, out: &mut Events<'a>) -> Result<(), Memory>
    ensures { OnOk result (Adds context power.now out.old out.new) }
{
    walk_primary(context, &power.first, out)?;
    for x in power.more.as_slice() {
        walk_primary(context, x, out)?;
    }
    Ok(())
}

#[cycle(expr)]
fn walk_primary<'a>(
    context: Context,
    primary: &'a Primary,
    out: &mut Events<'a>,
) -> Result<(), Memory>
    ensures { OnOk result (Adds context primary.now out.old out.new) }
{
    match &primary.form {
        PrimaryForm::Number(_) | PrimaryForm::True | PrimaryForm::False => Ok(()),
        PrimaryForm::Path(path) => walk_path(context, path, out),
        PrimaryForm::Brackets(inner) => walk_expr(context, inner.get(), out),
        PrimaryForm::Text(_, parts) => {
            for x in parts.as_slice() {
                walk_arg(context, x, out)?;
            }
            Ok(())
        }
        PrimaryForm::Nil(path) => walk_path(context, path, out),
    }
}

// The use of a path's root, with the name behind its dot.
fn root_use<'a>(context: Context, root: &'a Leaf, steps: &'a [Step]) -> Event<'a>
    ensures { result ≡ root_use context (leaf_view Class.Name root.now) (repeated steps_of step_view steps.now) }
{
    match steps {
        [] => Event::Use(name(root), context),
        [first, ..] => match first {
            Step::Field(second) => Event::Select(name(root), name(second), context),
            Step::Arguments(_) => Event::Use(name(root), context),
        },
    }
}

/// Adds the events of a path.
#[cycle(expr)]
pub fn walk_path<'a>(context: Context, path: &'a Path, out: &mut Events<'a>) -> Result<(), Memory>
    ensures { OnOk result (Adds context path.now out.old out.new) }
{
    let steps = path.steps.as_slice();
    out.push(root_use(context, &path.root, steps))?;
    for x in steps {
        walk_step(context, x, out)?;
    }
    Ok(())
}

#[cycle(expr)]
fn walk_step<'a>(context: Context, step: &'a Step, out: &mut Events<'a>) -> Result<(), Memory>
    ensures { OnOk result (Adds context (step_view step.now) out.old out.new) }
{
    match step {
        Step::Field(_) => Ok(()),
        Step::Arguments(args) => {
            for x in args.as_slice() {
                walk_arg(context, x, out)?;
            }
            Ok(())
        }
    }
}

#[cycle(expr)]
fn walk_arg<'a>(context: Context, arg: &'a Arg, out: &mut Events<'a>) -> Result<(), Memory>
    ensures { OnOk result (Adds context arg.now out.old out.new) }
{
    match &arg.form {
        ArgForm::One(place) => walk_place(context, place, out),
        ArgForm::Part(from, to) => {
            walk_place(context, from, out)?;
            walk_place(context, to, out)
        }
        ArgForm::All => Ok(()),
    }
}

#[cycle(expr)]
fn walk_place<'a>(context: Context, place: &'a Place, out: &mut Events<'a>) -> Result<(), Memory>
    ensures { OnOk result (Adds context place.now out.old out.new) }
{
    match &place.form {
        PlaceForm::Value(value) => walk_expr(context, value, out),
        PlaceForm::Length => Ok(()),
        PlaceForm::LengthLess(term) => walk_term(context, term, out),
    }
}
