ghost use Rattle.std.specs.Prelude.{◌≡◌, ◌++◌, ◌∷◌, [], None, OnOk};
ghost use Rattle.std.specs.Io.KnownBytes.{Appends};
ghost use Rattle.tu_outside.specs.Causes.{with_error};

use crate::{NoteFault, Notes};
use std::io;
use std::io::{Stderr, Write};
use std::marker::Model;

/// Notes on standard error, with a line end after each. It tells nothing of what was written
/// there. A contract sees its fault count, which stands still at its type's end.
#[derive(Drop)]
pub struct StdNotes {
    output: Stderr,
    fault_count: u64,
}

impl Model for StdNotes {
    ghost use Rattle.std.specs.Prelude.{ℕ};

    ghost Value = { ℕ };

    ghost view = { λ n. n.fault_count };
}

impl StdNotes {
    /// Standard error, with no faults yet. It takes no memory.
    pub fn make(rt: &HostRuntime) -> Self
        ensures { result ≡ 0 }
    {
        StdNotes {
            output: rt.stderr(),
            fault_count: 0,
        }
    }
}

const LINE_END: u8 = b'\n';

fn write_line<W: Write>(output: &mut W, text: &[u8]) -> io::Result<()>
    ensures { OnOk result (Appends (W.contents output.old) (W.contents output.new) (text.now ++ LINE_END ∷ [])) }
{
    match output.write_all(text) {
        Ok(()) => output.write_all(&[LINE_END]),
        Err(error) => Err(error),
    }
}

impl Notes for StdNotes {
    ghost lines = { λ _. None };

    ghost faults = { λ n. n };

    fn line(&mut self, text: &[u8]) -> Result<(), NoteFault>
        ensures { self.new ≡ with_error self.old result }
    {
        match write_line(&mut self.output, text) {
            Ok(()) => Ok(()),
            Err(_) => {
                self.fault_count = self.fault_count.saturating_add(1);
                Err(NoteFault)
            }
        }
    }
}
