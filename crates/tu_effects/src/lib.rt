//! What the routines of a program read and change, by themselves and by the routines that they
//! call, and the faults of effects.
#![tactic(auto)]

mod answer;
mod error;
mod fault;
mod finding;
mod formals;
mod index;
mod least;
mod outside;
mod question;
mod relations;
mod subjects;
mod unlisted;

pub use answer::effects;
pub use error::EffectError;
pub use fault::{EffectKind, Fault};
pub use least::{at_if, earlier};
pub use question::Question;
pub use relations::Effects;
pub use subjects::{is_one, is_outer};
