//! The printer: a tree back as the tokens that it spells, on one line. What stands below statements is written by
//! tu_flatten_parts.
#![tactic(auto)]

mod blocks;
mod line;
mod programs;
mod statements;
mod subprograms;

pub use line::{flatten, spelled_bytes};
