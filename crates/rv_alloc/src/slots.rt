// A slot for each value.

ghost use Rattle.std.specs.Prelude.{◌≡◌, IfOk};
ghost use Rattle.std.specs.List.{AllZip};
ghost use Rattle.rv_flat.specs.Lawful.{IsLawful as IsLawfulLinear};
ghost use Rattle.rv_flat.specs.Size.{linear_size};
ghost use Rattle.rv_alloc.specs.Assigned.{assigned_size};
ghost use Rattle.rv_alloc.specs.Holds.{Holds, HoldsRoutine, IsSlotted, HasRoom};
ghost use Rattle.rv_alloc.specs.Keeps.{Keeps, IsLawful};

use crate::assigned::Assigned;
use crate::copy::copied_linear;
use crate::numbers::numbers_of;
use crate::place::Places;
use rv_flat::{Linear, LinearRoutine};
use sqlite_items::Items;
use std::alloc::Global;
use tu_base::Memory;

/// Gives each value of each routine a slot of its own. It fails only for want of memory.
pub fn assign(alloc: Global, linear: &Linear) -> Result<Assigned, Memory>
    ensures holds { IfOk result (Holds linear.now) }
    ensures slots { IfOk result (λ assigned. AllZip IsSlotted linear.now.routines assigned.places) }
    ensures room { IfOk result (λ assigned. IsLawfulLinear linear.now → AllZip HasRoom linear.now.routines assigned.places) }
    ensures keeps { IfOk result (Keeps linear.now) }
    ensures lawful { IfOk result (λ assigned. IsLawfulLinear linear.now → IsLawful assigned) }
    ensures size { IfOk result (λ assigned. assigned_size assigned ≡ linear_size linear.now) }
{
    slotted(alloc, linear)
}

fn slotted(alloc: Global, linear: &Linear) -> Result<Assigned, Memory>
    ensures holds { IfOk result (Holds linear.now) }
    ensures slots { IfOk result (λ assigned. AllZip IsSlotted linear.now.routines assigned.places) }
{
    let mut places = Items::new(alloc);
    for r in linear.routines.as_slice() {
        let of_routine = slotted_routine(alloc, r)?;
        places.push(of_routine)?;
    }
    let copy = copied_linear(alloc, linear)?;
    Ok(Assigned::new(copy, places))
}

fn slotted_routine(alloc: Global, r: &LinearRoutine) -> Result<Places, Memory>
    ensures holds { IfOk result (HoldsRoutine r.now) }
    ensures slots { IfOk result (IsSlotted r.now) }
{
    let numbers = numbers_of(alloc, r)?;
    let mut places = Places::new(alloc);
    for value in &numbers {
        places.give_slot(*value)?;
    }
    Ok(places)
}
