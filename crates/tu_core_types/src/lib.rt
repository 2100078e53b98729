//! The types of a core's starts, declarations, statements, routines and programs. In contracts
//! each is the type of the definition that has its name, and what stands in a row there is a list
//! here.
#![tactic(auto)]

mod declaration;
mod plain;
mod program;
mod start;
mod statement;

pub use declaration::{Declaration, DeclarationForm};
pub use plain::{Plain, PlainForm, Shown, Taken};
pub use program::{Handler, Program, Routine};
pub use start::{Named, Start, StartForm};
pub use statement::{Arm, Block, Elsif, Part, Range, RangeForm, Statement, StatementForm, Test};
