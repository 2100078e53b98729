//! Which texts lead by calls to one of some texts: a search against the calls, from those on.
#![tactic(auto)]

mod marking;
mod rows;
mod search;

pub use rows::Rows;
pub use search::Search;
