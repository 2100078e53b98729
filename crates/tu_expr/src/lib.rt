//! The tree of an expression: one type for each production, and the leaves.
#![tactic(auto)]

mod expr;
mod leaf;
mod levels;
mod path;

pub use expr::{
    And, Compare, Expr, Multiplication, Not, Or, Power, Prefix, Primary, PrimaryForm, Relation,
    RelationKind, Sign, Sum, Term,
};
pub use leaf::{At, Leaf, Spot};
pub use levels::{compare_of, primary_of, sum_of};
pub use path::{Arg, ArgForm, Path, Place, PlaceForm, Step};
