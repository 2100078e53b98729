// The routines that put what a program puts, and their places.

ghost use Rattle.std.specs.Prelude.{◌≡◌, [], ◌∷◌, IfOk};
ghost use Rattle.rt_stream.specs.Routines.{put_int_routine, put_line_routine};

use crate::put_int::put_int;
use crate::put_line::put_line;
use ir_form::Routine;
use sqlite_items::Items;
use std::alloc::Global;
use tu_base::Memory;

/// The place of the routine that puts an int.
pub const PUT_INT: u32 = 0;

/// The place of the routine that puts the end of a line.
pub const PUT_LINE: u32 = 1;

/// The routines, at their places.
pub fn routines(alloc: Global) -> Result<Items<Routine>, Memory>
    ensures { IfOk result (λ rs. rs ≡ put_int_routine ∷ put_line_routine ∷ []) }
{
    let routines = vec![in alloc; put_int(alloc)?, put_line(alloc)?]?;
    Ok(Items::from_vec(routines))
}
