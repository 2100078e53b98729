//! What is counted in the texts of a program for their rooms, as far as statements go: nodes, and
//! words of results. All sums are cut off.
#![tactic(auto)]

mod declarations;
mod plain;
mod statements;

pub use statements::{block, nodes};
