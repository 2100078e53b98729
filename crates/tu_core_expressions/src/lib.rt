//! The types of a core's expressions, places and calls. In contracts each is the type of the
//! definition that has its name, and what stands in a row there is a list here.
#![tactic(auto)]

mod call;
mod path;
mod pointer;
mod scalar;
mod set;
mod text;

pub use call::{Actual, Call, Simple, SimpleForm};
pub use path::{Path, Root, Selector, Subscript};
pub use pointer::{Pointer, PointerForm};
pub use scalar::{Link, Scalar, ScalarForm};
pub use set::{Set, SetForm, SetLink};
pub use text::{Cut, Spot, SpotForm, Text, TextForm};
