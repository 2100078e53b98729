// The names of a program.
ghost use Rattle.std.specs.Prelude.{IfErr, IfOk};
ghost use Rattle.tu_scope_rules.specs.Answers.{IsCause, IsScoped};
ghost use Rattle.tu_scope_parts.specs.Walk.{events};

use crate::programs::walk_tree;
use std::alloc::Global;
use tu_scope_parts::Events;
use tu_scope_rules::{Context, ScopeError, Scoped, resolve_events};
use tu_tree::Tree;

/// The declarations of all used names of a program, or the least fault of its scopes, or want of memory.
pub fn resolve(alloc: Global, tree: &Tree) -> Result<Scoped, ScopeError>
    ensures scoped { IfOk result (λ uses. IsScoped (events Context.Elsewhere tree.now) uses) }
    ensures refused { IfErr result (λ error. IsCause (events Context.Elsewhere tree.now) error) }
{
    let mut list = Events::new(alloc);
    walk_tree(tree, &mut list)?;
    resolve_events(alloc, list.as_slice())
}
