// Clauses.
ghost use Rattle.std.specs.Prelude.{OnOk};
ghost use Rattle.grammar.specs.Description.{rule};
ghost use Rattle.tu_token.specs.Rules.{r-givens, r-invariant, r-post, r-pre};
ghost use Rattle.tu_expr.specs.Parts.{optional};
ghost use Rattle.tu_scope_parts.specs.Adds.{Adds};

use crate::events::Events;
use crate::expressions::walk_expr;
use crate::names::declare;
use tu_base::Memory;
use tu_scope_rules::Context;
use tu_tree::{Given, Givens, Invariant, Post, Pre};

/// Adds the events of what holds where a subprogram begins.
pub fn walk_pre<'a>(pre: &'a Option<Pre>, out: &mut Events<'a>) -> Result<(), Memory>
    ensures { OnOk result (Adds Context.Elsewhere (optional (rule r-pre) pre.now) out.old out.new) }
{
    match pre {
        Some(pre) => walk_expr(Context::Elsewhere, pre.condition.get(), out),
        None => Ok(()),
    }
}

/// Adds the events of what holds where a subprogram ends.
pub fn walk_post<'a>(post: &'a Option<Post>, out: &mut Events<'a>) -> Result<(), Memory>
    ensures { OnOk result (Adds Context.InPost (optional (rule r-post) post.now) out.old out.new) }
{
    match post {
        Some(post) => walk_expr(Context::InPost, post.condition.get(), out),
        None => Ok(()),
    }
}

/// Adds the events of an invariant.
pub fn walk_invariant<'a>(invariant: &'a Invariant, out: &mut Events<'a>) -> Result<(), Memory>
    ensures { OnOk result (Adds Context.Elsewhere invariant.now out.old out.new) }
{
    walk_expr(Context::Elsewhere, invariant.condition.get(), out)?;
    Ok(())
}

/// Adds the events of the invariant of a loop, where there is one.
pub fn walk_any_invariant<'a>(
    invariant: &'a Option<Invariant>,
    out: &mut Events<'a>,
) -> Result<(), Memory>
    ensures { OnOk result (Adds Context.Elsewhere (optional (rule r-invariant) invariant.now) out.old out.new) }
{
    match invariant {
        Some(invariant) => walk_invariant(invariant, out),
        None => Ok(()),
    }
}

fn walk_given<'a>(given: &'a Given, out: &mut Events<'a>) -> Result<(), Memory>
    ensures { OnOk result (Adds Context.Elsewhere given.now out.old out.new) }
{
    walk_expr(Context::Elsewhere, given.value.get(), out)?;
    declare(&given.name, out)?;
    Ok(())
}

fn walk_givens<'a>(givens: &'a Givens, out: &mut Events<'a>) -> Result<(), Memory>
    ensures { OnOk result (Adds Context.Elsewhere givens.now out.old out.new) }
{
    walk_given(&givens.first, out)?;
    for x in givens.more.as_slice() {
        walk_given(x, out)?;
    }
    Ok(())
}

/// Adds the events of the values that a subprogram begins with.
pub fn walk_any_givens<'a>(givens: &'a Option<Givens>, out: &mut Events<'a>) -> Result<(), Memory>
    ensures { OnOk result (Adds Context.Elsewhere (optional (rule r-givens) givens.now) out.old out.new) }
{
    match givens {
        Some(givens) => walk_givens(givens, out),
        None => Ok(()),
    }
}
