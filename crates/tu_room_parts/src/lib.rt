//! What is counted in the texts of a program for their rooms, as far as expressions and shapes go:
//! nodes, and words of shapes and of results. All sums are cut off.
#![tactic(auto)]

mod capped;
mod count;
mod expressions;
mod own;
mod shapes;

pub use capped::{MOST_ROOM, cut_off, plus, times};
pub use count::Count;
pub use expressions::{call, path, scalar, scalars, simple, text};
pub use own::{above_two, where_nodes};
pub use shapes::{known_words, set_words, text_words, words};
