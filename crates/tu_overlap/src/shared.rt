// Two actuals of a call that always are the same place.
ghost use Rattle.std.specs.Prelude.{◌≡◌, ◌↔◌, IfOk, IsTrue};
ghost use Rattle.tu_core.specs.Overlap.{SharedIn, SharedWith, are_compared as are_compared_of};
ghost use Rattle.tu_core.specs.Walk.{Same};
ghost use Rattle.tu_core_expressions.specs.ExpressionViews.{actuals_view};
ghost use Rattle.tu_effects.specs.Least.{IsLeast};
ghost use Rattle.tu_overlap.specs.Faults.{SharedBehind, SharedWithOne};
ghost use Rattle.tu_overlap.specs.Verdicts.{verdict_view};

use crate::walking::{Verdict, walk};
use std::alloc::Global;
use tu_base::Memory;
use tu_core::At;
use tu_core_expressions::{Actual, Path};
use tu_effects::{at_if, earlier};

/// Whether two actuals are compared: where one of them is `var`.
pub fn are_compared(is_var: bool, other_is_var: bool) -> bool
    ensures { result ≡ are_compared_of is_var other_is_var }
{
    is_var || other_is_var
}

fn is_same_place(verdict: &Verdict) -> bool
    ensures { IsTrue result ↔ (verdict_view verdict.now ≡ Same) }
{
    match verdict {
        Verdict::Apart => false,
        Verdict::Same => true,
        Verdict::Maybe(_) => false,
    }
}

// A later actual that is the same place as one of these.
fn same_as(alloc: Global, is_var: bool, p: &Path, later: &Actual) -> Result<Option<At>, Memory>
    ensures { IfOk result (λ found. IsLeast (SharedWithOne is_var p.now later.now) found) }
{
    match later {
        Actual::Given { .. } => Ok(None),
        Actual::Lent {
            at,
            is_var: other_is_var,
            place,
            ..
        } => {
            if !are_compared(is_var, *other_is_var) {
                return Ok(None);
            }
            let verdict = walk(alloc, p, place)?;
            Ok(at_if(is_same_place(&verdict), *at))
        }
    }
}

fn shared_with(
    alloc: Global,
    is_var: bool,
    p: &Path,
    later: &[Actual],
) -> Result<Option<At>, Memory>
    ensures { IfOk result (λ least. IsLeast (SharedWith is_var p.now (actuals_view later.now)) least) }
{
    let mut least = None;
    for place in (0..later.len()).rev() {
        least = earlier(same_as(alloc, is_var, p, &later[place])?, least);
    }
    Ok(least)
}

fn shared_behind(alloc: Global, first: &Actual, later: &[Actual]) -> Result<Option<At>, Memory>
    ensures { IfOk result (λ least. IsLeast (SharedBehind first.now (actuals_view later.now)) least) }
{
    match first {
        Actual::Given { .. } => Ok(None),
        Actual::Lent { is_var, place, .. } => shared_with(alloc, *is_var, place, later),
    }
}

/// The first actual of a call that always is the same place as an earlier one.
pub fn shared_in(alloc: Global, actuals: &[Actual]) -> Result<Option<At>, Memory>
    ensures { IfOk result (λ least. IsLeast (SharedIn (actuals_view actuals.now)) least) }
{
    let mut least = None;
    for place in (0..actuals.len()).rev() {
        let found = shared_behind(alloc, &actuals[place], &actuals[place + 1..])?;
        least = earlier(found, least);
    }
    Ok(least)
}
