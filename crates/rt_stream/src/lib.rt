//! Routines of the run time, in region code, that put what a program puts.
#![tactic(auto)]

mod build;
mod laws;
mod put_int;
mod put_line;
mod table;

pub use laws::{put_int_computes, put_line_computes, routines_are_valid};
pub use table::{PUT_INT, PUT_LINE, routines};
