// The routine that puts the end of a line.

ghost use Rattle.std.specs.Prelude.{◌≡◌, IfOk};
ghost use Rattle.rt_stream.specs.Routines.{put_line_routine};

use ir_code::Code;
use ir_form::{Region, Routine, Width};
use rv_isa::Service;
use sqlite_items::Items;
use std::alloc::Global;
use tu_base::Memory;

/// It has one word of memory, whose first byte it puts.
pub fn put_line(alloc: Global) -> Result<Routine, Memory>
    ensures { IfOk result (λ routine. routine ≡ put_line_routine) }
{
    let mut code = Code::new(alloc, 0);
    let at = code.frame(0)?;
    let end = code.constant(10)?;
    code.store(Width::Byte, at, end)?;
    let length = code.constant(1)?;
    code.ask(Service::PutConsole { at, length })?;
    let body = Region {
        parameters: Items::new(alloc),
        ops: code.ops,
        results: Items::new(alloc),
    };
    Ok(Routine {
        body,
        results: 0,
        room: 40,
        words: 1,
        depth: 1,
    })
}
