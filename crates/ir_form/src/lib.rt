//! Region code: nested regions over numbered values, in static single assignment form.
#![tactic(auto)]

mod around;
mod guards;
pub mod laws;
pub mod op;
pub mod plain;
mod tally;
pub mod unit;
mod validity;
pub mod weight;

pub use laws::{cost_covers_rounds, going_is_paid, run_is_steady, valid_is_sound};
pub use op::{Arm, Exit, Op, Range, Region};
pub use plain::{Plain, Width};
pub use unit::{Routine, Unit};
pub use validity::valid;
pub use weight::{WEIGHT, WORDS};
