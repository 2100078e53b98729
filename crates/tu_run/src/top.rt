// The top call.
ghost use Rattle.std.specs.Prelude.{◌≡◌, ◌≤◌};
ghost use Rattle.tu_run.specs.declared.report.Status.{Status};
ghost use Rattle.tu_run.specs.Answer.{Answers};
ghost use Rattle.tu_run.specs.Note.{IsShown};

use crate::Report;
use crate::answer::answer;
use crate::note::noted;
use std::alloc::Global;
use tu_base::Words;
use tu_outside::{Cabinet, Console, Notes};

/// Does what the words say, writes one note of how it went, and reports it.
///
/// A status is reached first, with its clauses in `Answers`. It is the one that is shown, unless its note fails.
pub fn turing<C: Console, K: Cabinet, S: Notes>(
    alloc: Global,
    words: &Words,
    console: &mut C,
    cabinet: &mut K,
    notes: &mut S,
) -> Report
    ensures { (reached : Status)
        × Answers words.now
        (record { left = C.left console.old; events = C.events console.old; files = K.files cabinet.old; console_faults = C.faults console.old; cabinet_faults = K.faults cabinet.old })
        (record { left = C.left console.new; events = C.events console.new; files = K.files cabinet.new; console_faults = C.faults console.new; cabinet_faults = K.faults cabinet.new })
        (record result { status = reached })
        × IsShown result.instructions reached result.status (S.lines notes.old) (S.lines notes.new) (S.faults notes.old) (S.faults notes.new)
        × (S.faults notes.old ≤ S.faults notes.new) }
{
    let mut report = answer(alloc, words, console, cabinet);
    report.status = noted(report.instructions, report.status, notes);
    report
}
