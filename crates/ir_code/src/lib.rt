//! Region code under construction.
#![tactic(auto)]

mod code;
mod laws;

pub use code::{Code, choice, leave, once, raise, repeat};
pub use laws::{choices_run, code_runs_in_order, loops_run};
