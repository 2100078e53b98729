//! Tokens, faults and the lexemes of a source.
#![tactic(auto)]

mod class;
mod fault;
mod grammar_laws;
mod laws;
mod nest;
mod token;
mod words;

pub use class::Class;
pub use fault::{LexError, ParseError};
pub use grammar_laws::{
    one_syntax_fault, one_token_decides, one_tree, table_is_as_printed, tree_or_fault,
};
pub use laws::{one_fault, one_token_list};
pub use nest::{Before, Construct, Role};
pub use token::{Token, Tokens};
pub use words::{spelling, spelling_is_read, word_class};
