//! The core: a small typed language, which the checks leave of a program. Here are its names and
//! the other parts that hold no expression. Its forms, rooms and walks are definitions, in
//! `specs/`.
#![tactic(auto)]

mod claim;
mod laws;
mod names;
mod targets;

pub use claim::Claim;
pub use laws::well_formed_is_typed;
pub use names::{At, CallResult, Formal, GlobalName, LocalName, PlaceKind, Variable};
pub use targets::{Base, Index, Size, Target};
