//! What names and expressions come to in the check of types, and what is known at a place of a
//! text.
#![tactic(auto)]

mod entities;
mod kind;
mod names;
mod operand;
mod state;
mod uses;
mod value;

pub use entities::Entities;
pub use kind::{Bounds, Kind};
pub use names::{Entity, Head, Holder, Parameter};
pub use operand::{Found, Operand, OperandForm, Place, Sort};
pub use state::{Around, ModuleText, Owner, State};
pub use uses::Uses;
pub use value::{Value, given_by, read_at};
