ghost use Rattle.std.specs.Prelude.{◌≡◌, None, OnOk};
ghost use Rattle.std.specs.Io.KnownBytes.{Appends};
ghost use Rattle.tu_outside.specs.Causes.{one_more, with_error};

use crate::input_buffer::InputBuffer;
use crate::{Console, ConsoleFault};
use std::io;
use std::io::{Stdin, Stdout, Write};
use std::marker::Model;

/// Standard input and standard output. It tells nothing of what they hold. A contract sees its
/// fault count, which stands still at its type's end.
#[derive(Drop)]
pub struct StdConsole {
    input: Stdin,
    output: Stdout,
    buffer: InputBuffer,
    fault_count: u64,
}

impl Model for StdConsole {
    ghost use Rattle.std.specs.Prelude.{ℕ};

    ghost Value = { ℕ };

    ghost view = { λ c. c.fault_count };
}

impl StdConsole {
    /// Standard input and standard output, with no faults yet. It takes no memory.
    pub fn make(rt: &HostRuntime) -> Self
        ensures { result ≡ 0 }
    {
        StdConsole {
            input: rt.stdin(),
            output: rt.stdout(),
            buffer: InputBuffer::new(),
            fault_count: 0,
        }
    }

    fn count_fault(&mut self) -> ConsoleFault
        ensures { self.new ≡ one_more self.old }
    {
        self.fault_count = self.fault_count.saturating_add(1);
        ConsoleFault
    }
}

// Ok says that all bytes were written, and that the writer was flushed behind them.
fn write_flushed<W: Write>(output: &mut W, bytes: &[u8]) -> io::Result<()>
    ensures { OnOk result (Appends (W.contents output.old) (W.contents output.new) bytes.now) }
{
    match output.write_all(bytes) {
        Ok(()) => output.flush(),
        Err(error) => Err(error),
    }
}

impl Console for StdConsole {
    ghost left = { λ _. None };

    ghost events = { λ _. None };

    ghost faults = { λ c. c };

    fn put(&mut self, bytes: &[u8]) -> Result<(), ConsoleFault>
        ensures { self.new ≡ with_error self.old result }
    {
        match write_flushed(&mut self.output, bytes) {
            Ok(()) => Ok(()),
            Err(_) => Err(self.count_fault()),
        }
    }

    fn get(&mut self) -> Result<Option<u8>, ConsoleFault>
        ensures { self.new ≡ with_error self.old result }
    {
        match self.buffer.next(&mut self.input) {
            Ok(byte) => Ok(byte),
            Err(_) => Err(self.count_fault()),
        }
    }
}
