//! Which sources are accepted, and why the others are refused.
#![tactic(auto)]

mod built;
mod checker;
mod declared;
mod error;
mod laws;
mod refusal;
mod statements;
mod values;

pub use built::unbuilt_program;
pub use checker::{Checked, check};
pub use error::CheckError;
pub use laws::{accepted_has_limits, one_answer, some_answer};
pub use refusal::{AliasError, EffectError, Refusal, TypeError};
