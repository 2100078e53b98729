// The linear code of a whole unit.

ghost use Rattle.std.specs.Prelude.{◌≡◌, ◌*◌, ◌≤◌, All, IfOk};
ghost use Rattle.ir_form.specs.Lawful.{IsLawful as IsLawfulUnit};
ghost use Rattle.ir_form.specs.Valid.{IsValid};
ghost use Rattle.ir_form.specs.Weight.{unit_weight};
ghost use Rattle.rv_flat.specs.Flat.{flat_routine, flat_unit};
ghost use Rattle.rv_flat.specs.Keeps.{Keeps};
ghost use Rattle.rv_flat.specs.Lawful.{IsLawful};
ghost use Rattle.rv_flat.specs.Parts.{KeepsParts, HasItsLabels, TakesOnce, IsUnguarded, IsUnguardedUnit};
ghost use Rattle.rv_flat.specs.Size.{linear_size};

use crate::copy::copied_values;
use crate::flatten::Output;
use crate::linear::{Instruction, Linear, LinearRoutine};
use ir_form::{Routine, Unit, WORDS};
use sqlite_items::Items;
use std::alloc::Global;
use tu_base::{Bytes, Memory};

/// The linear code of a unit, which does what the unit does. It fails only for want of memory.
pub fn flat(alloc: Global, unit: &Unit) -> Result<Linear, Memory>
    ensures keeps { IfOk result (λ linear. Keeps unit.now linear) }
    ensures parts { IfOk result (λ linear. KeepsParts unit.now linear) }
    ensures labels { IfOk result (λ linear. All (λ r. HasItsLabels r.code) linear.routines) }
    ensures taken_once { IfOk result (λ linear. IsValid unit.now → All TakesOnce linear.routines) }
    ensures unguarded { IfOk result (λ linear. IsUnguardedUnit unit.now → IsUnguarded linear) }
    ensures lawful { IfOk result (λ linear. IsValid unit.now → IsLawfulUnit unit.now → IsLawful linear) }
    ensures size { IfOk result (λ linear. linear_size linear ≤ WORDS * unit_weight unit.now) }
{
    flat_exactly(alloc, unit)
}

fn flat_exactly(alloc: Global, unit: &Unit) -> Result<Linear, Memory>
    ensures { IfOk result (λ linear. linear ≡ flat_unit unit.now) }
{
    let mut routines = Items::new(alloc);
    for r in unit.routines.as_slice() {
        let straight = flat_one(alloc, r)?;
        routines.push(straight)?;
    }
    let texts = Bytes::from_slice(alloc, unit.texts.as_slice())?;
    Ok(Linear {
        globals: unit.globals,
        main: unit.main,
        routines,
        texts,
    })
}

fn flat_one(alloc: Global, r: &Routine) -> Result<LinearRoutine, Memory>
    ensures { IfOk result (λ straight. straight ≡ flat_routine r.now) }
{
    let mut out = Output::new(alloc);
    out.put_ops(alloc, 0, r.body.ops.as_slice())?;
    let gives = copied_values(alloc, &r.body.results)?;
    out.put(Instruction::Back { gives })?;
    let parameters = copied_values(alloc, &r.body.parameters)?;
    Ok(LinearRoutine {
        parameters,
        code: out.into_code(),
        room: r.room,
        words: r.words,
        depth: r.depth,
    })
}
