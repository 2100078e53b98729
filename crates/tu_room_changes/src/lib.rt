//! The locals that the texts of a program change, found in one pass. A local is told as often as
//! it is changed.
#![tactic(auto)]

mod declarations;
mod expressions;
mod laws;
mod roots;
mod statements;

pub use declarations::declaration;
pub use expressions::{path, scalar};
pub use laws::changes_are_told;
pub use roots::note_var_root;
pub use statements::{plain, range, test};
