//! The parser, second part: names, types, declarations, clauses, and lists of imported and exported names. It stands on
//! tu_reader, and below tu_parse.
#![tactic(auto)]

mod bounds;
mod clauses;
mod declarations;
mod imports;
mod naming;
mod shortened;
mod types;

pub use bounds::{index, range};
pub use clauses::{
    ending, invariant, optional_givens, optional_invariant, optional_post, optional_pre,
};
pub use declarations::{StartReader, bind, constant, start, type_declaration, variable};
pub use imports::{optional_export, optional_import};
pub use naming::{name, names, optional_name};
pub use types::{TypeReader, spec};
