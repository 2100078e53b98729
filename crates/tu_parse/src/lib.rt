//! The parser, third part: blocks, statements, subprograms, modules and whole programs, and `parse`, which is the way in. Its
//! first part, tu_reader, has the tokens that are left and expressions; its second, tu_types_reader, types, declarations and clauses.
//! `flatten`, the way back from a tree to tokens, is handed on from tu_flatten.
#![tactic(auto)]

mod blocks;
mod parser;
mod programs;
mod simple;
mod statements;
mod subprograms;

pub use parser::parse;
pub use tu_flatten::{flatten, spelled_bytes};
