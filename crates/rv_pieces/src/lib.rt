//! The words of a text so far, and short sequences of instructions at its end.
#![tactic(auto)]

mod around;
mod moves;
mod output;
mod texts;

pub use around::{CALLER, LINK};
pub use output::{NEAR, Output};
