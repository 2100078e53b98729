//! Grammars as data: what they spell, trees, the test that one lexeme ahead decides, the reader, and their
//! laws.
#![tactic(auto)]

mod laws;

pub use laws::{
    marked_again, numbers_are_paid, one_derivation, one_fault, one_tree, print_is_read,
    read_is_spelled, reading_finishes, spelled_or_faulty, stops_at_fault,
};
