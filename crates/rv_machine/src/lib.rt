//! The machine that runs an image: its memory, its registers, and as many instructions as are asked for.
#![tactic(auto)]

mod arithmetic;
mod ask;
mod execute;
mod laws;
mod load;
mod machine;
mod memory;
mod pause;
mod registers;
mod run;
mod step;
mod stepped;

pub use laws::runs_rest;
pub use machine::Machine;
pub use pause::Pause;
