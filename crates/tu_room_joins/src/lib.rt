//! The joins of a program's texts: for each statement with blocks, how many scalar locals it
//! changes. One pass over a text notes what it changes, and counts behind each statement which
//! locals stand in what the statement has noted.
#![tactic(auto)]

mod scalars;
mod statements;

pub use scalars::Scalars;
pub use statements::joins;
