//! The whole program as one call.
#![tactic(auto)]

mod answer;
mod command;
mod note;
mod reason;
mod report;
mod top;

pub use report::{Report, Status};
pub use top::turing;
