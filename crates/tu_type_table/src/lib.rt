//! The types of a program by their numbers, in a table that only grows.
#![tactic(auto)]

mod key;
mod limits;
mod shapes;
mod spans;
mod table;
#[cfg(test)]
mod tests;
mod types;
mod words;

pub use limits::{MOST_PARTS, MOST_WORDS};
pub use table::TypeTable;
pub use types::{Field, Row, TypeForm, Variant};
