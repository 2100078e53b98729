//! Places for the values of linear code, and a checker of them.
#![tactic(auto)]

pub mod assigned;
mod checker;
mod copy;
mod laws;
mod numbers;
pub mod place;
mod plain;
mod same;
mod slots;

pub use assigned::Assigned;
pub use checker::holds;
pub use laws::holding_keeps;
pub use place::{Place, Places};
pub use slots::assign;
