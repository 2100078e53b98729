//! What the checks of types share: what a form comes to, faults and which of them is told, and the
//! numbers that an int can be.
#![tactic(auto)]

mod fault;
mod int;
mod stop;

pub use fault::{Fault, FaultKind};
pub use int::Int;
pub use stop::{Stop, both, faulty};
