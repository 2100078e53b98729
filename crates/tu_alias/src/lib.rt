//! Why passing by reference is right: in a program that keeps the rules on overlap nobody can tell
//! a location from a copy. The definitions are in `specs/`; the laws are the contracts of functions
//! without bodies.
#![tactic(auto)]

mod laws;

pub use laws::{calls_are_apart, lent_is_unreached, nothing_lent_is_seen, reference_is_copying};
