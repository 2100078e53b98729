//! The compiler as a chain of passes, each of which keeps what a code means.
#![tactic(auto)]

mod assign;
mod chain;
mod compiler;
mod emit;
mod flat;
mod generate;
mod laws;

pub use assign::Assign;
pub use chain::{Chain, Middle, image};
pub use compiler::{Compiler, compile};
pub use emit::Emit;
pub use flat::Flat;
pub use generate::Generate;
pub use laws::{
    fits_where_placed, lawful_assigned_never_faults, lawful_linear_never_faults,
    lawful_unit_never_faults,
};
