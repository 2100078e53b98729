//! The rooms of a program's texts: how many words each takes while it runs, by the sums over its
//! core that the definition asks for.
#![tactic(auto)]

mod program;

pub use program::{Rooms, find_rooms};
