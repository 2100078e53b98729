// A unit that ends at once, and its image: the passes of the compiler after the first are called on a unit that is
// proved to be ready.

ghost use Rattle.std.specs.Prelude.{◌≡◌, IfOk};
ghost use Rattle.tu_agree.specs.Keep.{KeepsInstructions};
ghost use Rattle.tu_agree.specs.Outcomes.{image_meant};
ghost use Rattle.tu_rows.specs.Example.{ending_unit};
ghost use Rattle.tu_compile.specs.Meant.{region_meant};

use crate::rows::rows_hold;
use ir_form::{Region, Routine, Unit};
use rv_image::Image;
use sqlite_items::Items;
use std::alloc::Global;
use std::test::Fail;
use tu_agree::Pass;
use tu_base::{Bytes, Memory};
use tu_compile::{Assign, Chain, Emit, Flat, image};

/// The unit.
fn ending(alloc: Global) -> Result<Unit, Memory>
    ensures { IfOk result (λ unit. unit ≡ ending_unit) }
{
    let mut routines = Items::new(alloc);
    let body = Region {
        parameters: Items::new(alloc),
        ops: Items::new(alloc),
        results: Items::new(alloc),
    };
    routines.push(Routine {
        body,
        results: 0,
        room: 32,
        words: 0,
        depth: 0,
    })?;
    Ok(Unit {
        globals: 0,
        main: 0,
        routines,
        texts: Bytes::make(alloc),
    })
}

/// Its image.
#[tactic(auto, using(crate::proofs::Ending::ending_ready))]
fn image_of_ending(alloc: Global) -> Result<Image, Memory>
    ensures { let meant = region_meant ending_unit in
        IfOk result (λ image. KeepsInstructions 1 12 meant (image_meant image)) }
{
    let unit = ending(alloc)?;
    image(alloc, &unit)
}

// What a pass costs for each unit of what it costs before, what it costs once, and that once.
const COSTS: &[(u64, u64, u64)] = &[
    (Flat::SLOW, Flat::START, 0),
    (Assign::SLOW, Assign::START, 0),
    (Emit::SLOW, Emit::START, 12),
    (Chain::SLOW, Chain::START, 12),
];

fn is_as_said(_: Global, row: &(u64, u64, u64)) -> Result<bool, Memory> {
    let (slow, start, wanted) = *row;
    Ok((slow, start) == (1, wanted))
}

#[test]
fn chain_makes_image(rt: HostRuntime) -> Result<(), Fail> {
    rows_hold(&rt, rt.alloc(), COSTS, is_as_said);
    let image = image_of_ending(rt.alloc())?;
    assert!(rt; (image.globals(), image.entry()) == (0, 0));
    Ok(())
}
