// Whether places are right.

ghost use Rattle.std.specs.Prelude.{◌≡◌, ◌↔◌, IsTrue, IfOk};
ghost use Rattle.rv_alloc.specs.Holds.{Holds, HoldsRoutine};

use crate::assigned::Assigned;
use crate::numbers::numbers_of;
use crate::place::Places;
use crate::same::same_linear;
use rv_flat::{Linear, LinearRoutine};
use std::alloc::Global;
use std::collections::HashMap;
use tu_base::Memory;

/// Whether the assigned code is that of the linear code, each value has a place, and no two values
/// of a routine share one. It fails only for want of memory.
pub fn holds(alloc: Global, linear: &Linear, assigned: &Assigned) -> Result<bool, Memory>
    ensures { IfOk result (λ answer. IsTrue answer ↔ Holds linear.now assigned.now) }
{
    if !same_linear(assigned.linear(), linear) {
        return Ok(false);
    }
    let routines = linear.routines.as_slice();
    let places = assigned.places();
    if routines.len() != places.len() {
        return Ok(false);
    }
    for i in 0..routines.len() {
        if !holds_routine(alloc, &routines[i], &places[i])? {
            return Ok(false);
        }
    }
    Ok(true)
}

fn holds_routine(alloc: Global, r: &LinearRoutine, places: &Places) -> Result<bool, Memory>
    ensures { IfOk result (λ answer. IsTrue answer ↔ HoldsRoutine r.now places.now) }
{
    let numbers = numbers_of(alloc, r)?;
    let mut owners = HashMap::new(alloc);
    for value in &numbers {
        let Some(place) = places.of(*value) else {
            return Ok(false);
        };
        let owner = owners.insert(place.number(), *value)?;
        let first = owner.unwrap_or(*value);
        if first != *value {
            return Ok(false);
        }
    }
    Ok(true)
}
