//! When an image agrees with the meaning of a program, what follows from that, and how it comes
//! about: by the passes of a compiler, each of which keeps the meaning of a code.
#![tactic(auto)]

mod chain;
pub mod example;
mod laws;
mod pass;

pub use chain::{Both, Follows, compile};
pub use laws::{going_counts_all, kept_is_agreed, meaning_is_run, run_is_meant};
pub use pass::Pass;
