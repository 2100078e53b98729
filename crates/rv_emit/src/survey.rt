// Where all things lie in the text of assigned code.

ghost use Rattle.std.specs.Prelude.{◌≤◌, IfOk};
ghost use Rattle.tu_base.specs.declared.limits.TheConstants.{MOST_TEXT_WORDS};
ghost use Rattle.rv_alloc.specs.Assigned.{placed_code};
ghost use Rattle.rv_emit.specs.Site.{word_count, IsSite};

use crate::lengths::frame_of;
use crate::site::Site;
use rv_alloc::Assigned;
use std::alloc::Global;
use tu_base::Memory;

// The routines lie behind 20 words.
const ROUTINES_AT: u32 = 65616;

pub fn survey(alloc: Global, assigned: &Assigned) -> Result<Site, Memory>
    requires { word_count (placed_code assigned.now) ≤ MOST_TEXT_WORDS }
    ensures { IfOk result (IsSite (placed_code assigned.now)) }
{
    let mut entries = Vec::new(alloc);
    let mut labels = Vec::new(alloc);
    let mut at = ROUTINES_AT;
    while let Some(frame) = frame_of(assigned, labels.len()) {
        let of_routine = frame.labels(alloc, assigned, at)?;
        entries.push(at)?;
        at = of_routine.end;
        labels.push(of_routine)?;
    }
    let bytes = assigned.linear().texts.as_slice().len();
    Ok(Site {
        globals: at + 4 * (((bytes + 3) / 4) as u32),
        texts: at,
        entries,
        labels,
    })
}
