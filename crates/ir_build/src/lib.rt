//! Expressions as region code.
#![tactic(auto)]

mod comparisons;
mod environment;
mod expressions;
mod laws;
mod literals;
mod names;

pub use comparisons::{Tested, condition, where_tested};
pub use environment::Environment;
pub use expressions::expression;
pub use laws::{expressions_add, expressions_do, expressions_fit};
pub use names::Names;
