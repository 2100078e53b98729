// What all tables have in common.

use std::alloc::Global;
use std::fmt::Debug;
use std::process::Abort;

pub type Text = &'static str;

/// Asserts that each row holds.
pub fn rows_hold<T, E: Debug + Drop, F: Fn(Global, &T) -> Result<bool, E>>(
    rt: &impl Abort,
    alloc: Global,
    rows: &[T],
    holds: F,
)
    requires { F.IsAlwaysCallable holds }
{
    for (number, row) in rows.iter().enumerate() {
        let answer = holds(alloc, row);
        assert!(rt; matches!(answer, Ok(true)), "row {number}: {answer:?}");
    }
}
