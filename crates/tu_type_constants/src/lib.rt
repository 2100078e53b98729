//! The values of constant expressions, and what operators make of them.
#![tactic(auto)]

#[cfg(test)]
mod cases;
mod constant;
mod numbers;
mod power;
mod scalars;
mod texts;

pub use constant::{Constant, number_in};
pub use numbers::{of_numbers, of_truths, prefixed};
pub use texts::{of_joined, of_texts};
