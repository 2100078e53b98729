//! What runs of instructions do: where the machine comes to, in how many instructions.
#![tactic(auto)]

mod laws;

pub use laws::{run_goes_on, run_is_over, run_shows, trace_grows};
