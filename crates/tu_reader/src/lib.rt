//! The parser, first part: the tokens that are left, what each function of the parser promises, and the functions for
//! expressions. Types and declarations follow in tu_types_reader, and all else in tu_parse.
#![tactic(auto)]

mod cursor;
mod expressions;
mod operator;
mod paths;
mod stop;

pub use cursor::Cursor;
pub use expressions::{ExprReader, expr, path};
pub use stop::Stop;
