//! What the parts of a tree below statements do with names, as a list of events.
#![tactic(auto)]

mod clauses;
mod declarations;
mod events;
mod expressions;
mod heads;
mod imports;
mod names;
mod types;

pub use clauses::{walk_any_givens, walk_any_invariant, walk_invariant, walk_post, walk_pre};
pub use declarations::{walk_bind, walk_const, walk_type, walk_var};
pub use events::Events;
pub use expressions::{walk_expr, walk_path};
pub use heads::{await_body, begin_subprogram, end_forward, end_scope, head_name, walk_head};
pub use imports::{list_any_export, list_any_import};
pub use names::{NameRole, declare, name};
pub use types::{walk_labels, walk_range, walk_spec};
