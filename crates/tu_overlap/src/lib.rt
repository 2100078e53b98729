//! When two places of a call may be the same, and the faults of overlap.
#![tactic(auto)]

mod answer;
mod bound;
mod error;
mod fault;
mod imported;
mod laws;
mod pairing;
mod shared;
mod texts;
mod walking;

pub use answer::overlaps;
pub use error::AliasError;
pub use fault::{Fault, OverlapKind};
pub use laws::no_fault_is_all_rules;
pub use pairing::{Pair, pairs};
pub use walking::{Noted, Verdict, walk};
