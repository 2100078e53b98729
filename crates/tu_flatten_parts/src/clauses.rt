// Clauses and ends.
ghost use Rattle.std.specs.Prelude.{IfOk};
ghost use Rattle.grammar.specs.Description.{rule};
ghost use Rattle.tu_token.specs.Rules.{r-givens, r-invariant, r-post, r-pre};
ghost use Rattle.tu_expr.specs.Parts.{optional};
ghost use Rattle.tu_flatten_parts.specs.Writes.{Writes};

use crate::expressions::write_expr;
use crate::pieces::Pieces;
use tu_base::Memory;
use tu_tree::{Class, Ending, Given, Givens, Invariant, Post, Pre};

/// Adds what holds where a subprogram begins, where that is said.
pub fn write_pre(pre: &Option<Pre>, out: &mut Pieces) -> Result<(), Memory>
    ensures { IfOk result (λ _. Writes (optional (rule r-pre) pre.now) out.old out.new) }
{
    match pre {
        Some(pre) => {
            out.word(Class::WordPre)?;
            write_expr(pre.condition.get(), out)
        }
        None => Ok(()),
    }
}

/// Adds what holds where a subprogram ends, where that is said.
pub fn write_post(post: &Option<Post>, out: &mut Pieces) -> Result<(), Memory>
    ensures { IfOk result (λ _. Writes (optional (rule r-post) post.now) out.old out.new) }
{
    match post {
        Some(post) => {
            out.word(Class::WordPost)?;
            write_expr(post.condition.get(), out)
        }
        None => Ok(()),
    }
}

/// Adds an invariant.
pub fn write_invariant(invariant: &Invariant, out: &mut Pieces) -> Result<(), Memory>
    ensures { IfOk result (λ _. Writes invariant.now out.old out.new) }
{
    out.word(Class::WordInvariant)?;
    write_expr(invariant.condition.get(), out)?;
    Ok(())
}

/// Adds the invariant of a loop, where there is one.
pub fn write_any_invariant(invariant: &Option<Invariant>, out: &mut Pieces) -> Result<(), Memory>
    ensures { IfOk result (λ _. Writes (optional (rule r-invariant) invariant.now) out.old out.new) }
{
    match invariant {
        Some(invariant) => write_invariant(invariant, out),
        None => Ok(()),
    }
}

fn write_given(given: &Given, out: &mut Pieces) -> Result<(), Memory>
    ensures { IfOk result (λ _. Writes given.now out.old out.new) }
{
    out.name(&given.name)?;
    out.word(Class::SignAssign)?;
    write_expr(given.value.get(), out)?;
    Ok(())
}

fn write_givens(givens: &Givens, out: &mut Pieces) -> Result<(), Memory>
    ensures { IfOk result (λ _. Writes givens.now out.old out.new) }
{
    out.word(Class::WordInit)?;
    write_given(&givens.first, out)?;
    for x in givens.more.as_slice() {
        out.word(Class::SignComma)?;
        write_given(x, out)?;
    }
    Ok(())
}

/// Adds the values that a subprogram begins with, where they have names.
pub fn write_any_givens(givens: &Option<Givens>, out: &mut Pieces) -> Result<(), Memory>
    ensures { IfOk result (λ _. Writes (optional (rule r-givens) givens.now) out.old out.new) }
{
    match givens {
        Some(givens) => write_givens(givens, out),
        None => Ok(()),
    }
}

/// Adds the end of a subprogram or module.
pub fn write_ending(ending: &Ending, out: &mut Pieces) -> Result<(), Memory>
    ensures { IfOk result (λ _. Writes ending.now out.old out.new) }
{
    out.word(Class::WordEnd)?;
    out.name(&ending.name)?;
    Ok(())
}
