//! A source as tokens, read once from the left.
#![tactic(auto)]

mod laws;
mod lexer;
mod number;
mod piece;
mod separator;
mod sign;
mod stack;
mod text;
mod word;

pub use laws::{tokens_or_fault, tokens_within_limits};
pub use lexer::lex;
