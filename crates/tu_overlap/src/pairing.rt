// The pairs of actuals that a call tests.
ghost use Rattle.std.specs.Prelude.{◌≡◌, ◌+◌, ◌<◌, ◌++◌, drop, length, map, IfOk, OnOk};
ghost use Rattle.tu_core.specs.Walk.{pair_if, pairs_of, pairs_with};
ghost use Rattle.tu_core_expressions.specs.ExpressionViews.{actuals_view};
ghost use Rattle.tu_overlap.specs.Pairs.{pair_view, pairs_behind, pairs_of_one};
ghost use Rattle.tu_overlap.specs.Verdicts.{verdict_view};

use crate::shared::are_compared;
use crate::walking::{Noted, Verdict, walk};
use sqlite_items::Items;
use std::alloc::Global;
use tu_base::Memory;
use tu_core_expressions::{Actual, Path};

/// Two actuals of a call, by their numbers, that may be the same place, with what is to be tested.
#[derive(Drop)]
pub struct Pair {
    pub first: usize,
    pub second: usize,
    pub tests: Items<Noted>,
}

fn add_if(
    pairs: &mut Items<Pair>,
    first: usize,
    second: usize,
    verdict: Verdict,
) -> Result<(), Memory>
    ensures { OnOk result (map pair_view pairs.new ≡ map pair_view pairs.old ++ pair_if first second (verdict_view verdict)) }
{
    match verdict {
        Verdict::Apart => Ok(()),
        Verdict::Same => Ok(()),
        Verdict::Maybe(tests) => {
            pairs.push(Pair {
                first,
                second,
                tests,
            })?;
            Ok(())
        }
    }
}

fn add_one(
    alloc: Global,
    pairs: &mut Items<Pair>,
    numbers: (usize, usize),
    is_var: bool,
    p: &Path,
    later: &Actual,
) -> Result<(), Memory>
    ensures { OnOk result (map pair_view pairs.new ≡ map pair_view pairs.old ++ pairs_of_one numbers.0 numbers.1 is_var p.now later.now) }
{
    match later {
        Actual::Given { .. } => Ok(()),
        Actual::Lent {
            is_var: other_is_var,
            place,
            ..
        } => {
            if !are_compared(is_var, *other_is_var) {
                return Ok(());
            }
            add_if(pairs, numbers.0, numbers.1, walk(alloc, p, place)?)
        }
    }
}

fn add_with(
    alloc: Global,
    pairs: &mut Items<Pair>,
    actuals: &[Actual],
    first: usize,
    is_var: bool,
    p: &Path,
) -> Result<(), Memory>
    requires { first < length actuals.now }
    ensures { OnOk result (map pair_view pairs.new ≡ map pair_view pairs.old ++ pairs_with first is_var p.now (first + 1) (actuals_view (drop (first + 1) actuals.now))) }
{
    for second in first + 1..actuals.len() {
        add_one(alloc, pairs, (first, second), is_var, p, &actuals[second])?;
    }
    Ok(())
}

fn add_behind(
    alloc: Global,
    pairs: &mut Items<Pair>,
    actuals: &[Actual],
    first: usize,
    one: &Actual,
) -> Result<(), Memory>
    requires { first < length actuals.now }
    ensures { OnOk result (map pair_view pairs.new ≡ map pair_view pairs.old ++ pairs_behind first one.now (actuals_view (drop (first + 1) actuals.now))) }
{
    match one {
        Actual::Given { .. } => Ok(()),
        Actual::Lent { is_var, place, .. } => add_with(
            alloc, pairs, actuals, first, *is_var, place,
        ),
    }
}

/// The pairs that a call with these actuals tests.
pub fn pairs(alloc: Global, actuals: &[Actual]) -> Result<Items<Pair>, Memory>
    ensures { IfOk result (λ pairs. map pair_view pairs ≡ pairs_of (actuals_view actuals.now)) }
{
    let mut pairs = Items::new(alloc);
    for first in 0..actuals.len() {
        add_behind(alloc, &mut pairs, actuals, first, &actuals[first])?;
    }
    Ok(pairs)
}
