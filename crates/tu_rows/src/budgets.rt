// Programs with budgets.

use crate::outside::{AMPLE, Outside};
use std::alloc::Global;
use std::test::Fail;
use tu_base::Memory;
use tu_outside::CabinetError;
use tu_run::Status;

const LONG_SUM: &str = "\
var i := 1 var s := 0
loop exit when i > 50000 s := s + i i := i + 1 end loop
put s
";

const SMALL: &str = "var x := 40 put x + 2";

type Count = Result<Option<u64>, CabinetError>;

// The status of a run with a budget, and how many instructions were counted.
fn run_with(alloc: Global, budget: u64, outside: &mut Outside) -> Result<(Status, u64), Memory> {
    let line = format!(in alloc; "run a.t budget={budget}")?;
    outside.outcome(alloc, line.as_str())
}

// How many instructions are counted where a source ends within a budget and writes these bytes.
fn instructions(alloc: Global, source: &str, budget: u64, output: &str) -> Count {
    let mut outside = Outside::make(alloc, source.as_bytes(), AMPLE)?;
    let (status, count) = run_with(alloc, budget, &mut outside)?;
    let ended = status == Status::Ended && outside.has_written(output);
    Ok(ended.then_some(count))
}

// About 100 instructions for each of 50,000 rounds.
#[test]
fn rounds_take_few_instructions(rt: HostRuntime) -> Result<(), Fail> {
    let count = instructions(rt.alloc(), LONG_SUM, 10_000_000_000, "1250025000\n")?;
    assert!(rt; count.is_some_and(|count| count <= 5_100_000), "{count:?}");
    Ok(())
}

// How many bytes a budget that is spent leaves, where they are a first part of what the whole run writes.
fn part_left(alloc: Global, budget: u64) -> Result<Option<usize>, CabinetError> {
    let mut outside = Outside::make(alloc, SMALL.as_bytes(), AMPLE)?;
    let reached = run_with(alloc, budget, &mut outside)?;
    let part = outside.part_written("42\n");
    Ok(part.filter(|_| reached == (Status::Spent, budget)))
}

// The first budget below the end that is not spent, or leaves no first part, or less than the one before.
fn first_wrong_budget(alloc: Global, end: u64) -> Count {
    let mut before = 0;
    for budget in 0..end {
        match part_left(alloc, budget)? {
            Some(length) if length >= before => before = length,
            _ => return Ok(Some(budget)),
        }
    }
    Ok(None)
}

#[test]
fn each_budget_leaves_a_first_part(rt: HostRuntime) -> Result<(), Fail> {
    let alloc = rt.alloc();
    let whole = instructions(alloc, SMALL, 10_000, "42\n")?;
    let end = whole.unwrap_or(0);
    assert!(rt; end > 0);
    assert_eq!(rt; first_wrong_budget(alloc, end)?, None);
    assert_eq!(rt; instructions(alloc, SMALL, end, "42\n")?, whole);
    Ok(())
}
