//! Linear code, and the way from region code to it.
#![tactic(auto)]

mod copy;
mod flatten;
mod laws;
pub mod linear;
mod units;

pub use copy::{copied_handler, copied_plain, copied_values};
pub use laws::{cost_covers_rounds, going_is_paid};
pub use linear::{Handler, Instruction, Linear, LinearRoutine, Target};
pub use units::flat;
