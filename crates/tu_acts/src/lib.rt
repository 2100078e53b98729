//! What the texts of a program do, as flat lists in the order of the text. The rules on effects
//! and on overlap speak of these acts alone.
#![tactic(auto)]

mod act;
mod act_list;
mod declarations;
mod expressions;
mod plain;
mod routines;
mod statements;

pub use act::{Act, ActForm, Subject};
pub use routines::{Texts, main_acts, routine_acts};
