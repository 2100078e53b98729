//! The scope rules, over the list of what a text does with names: which declaration a used name has, and the least
//! fault.
#![tactic(auto)]

mod environment;
mod error;
mod event;
mod fault;
mod faults;
mod laws;
mod name_use;
mod resolve;
mod search;
mod table;

pub use error::ScopeError;
pub use event::{BodyKind, Context, Declaration, Entity, Event, Name, Visibility};
pub use laws::{closed_is_unseen, least_is_told};
pub use name_use::NameUse;
pub use resolve::{Scoped, resolve_events};
