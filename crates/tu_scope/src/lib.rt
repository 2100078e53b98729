//! Scopes: what a tree does with names, in the order of its text, and which declaration each used name has. What
//! stands below statements is walked by tu_scope_parts, and the rules stand in tu_scope_rules.
#![tactic(auto)]

mod blocks;
mod names;
mod programs;
mod statements;
mod subprograms;

pub use names::resolve;
pub use tu_scope_rules::{NameUse, ScopeError, Scoped};
