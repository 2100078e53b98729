//! Statements and programs as region code.
#![tactic(auto)]

mod declarations;
mod printing;
mod program;
mod statements;

pub use program::unit;
