//! Values in memory and in region code: the word of each, and the operations that read them, store them
//! and work them out.
#![tactic(auto)]

mod laws;
mod pieces;

pub use laws::{
    constants_are_given, numbers_are_given, operators_meet, relations_hold, values_are_kept,
};
pub use pieces::{
    Fixed, difference, fetch, fixed_values, less, literal, more, number, product, store, sum, unset,
};
