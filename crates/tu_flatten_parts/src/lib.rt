//! The first part of the printer, which turns a tree back into its tokens: lexemes in the order of a text, and what the parts
//! of a program below its statements spell. Statements and whole programs stand in tu_flatten.
#![tactic(auto)]

mod clauses;
mod declarations;
mod expressions;
mod imports;
mod pieces;
mod types;

pub use clauses::{
    write_any_givens, write_any_invariant, write_ending, write_invariant, write_post, write_pre,
};
pub use declarations::{write_bind, write_const, write_type, write_var};
pub use expressions::{write_expr, write_labels, write_path};
pub use imports::{write_any_export, write_any_import};
pub use pieces::{Piece, Pieces};
pub use types::{write_names, write_range, write_spec, write_tag};
