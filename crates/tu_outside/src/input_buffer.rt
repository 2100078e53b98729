// What was read of a source and is not taken yet.
ghost use Rattle.std.specs.Prelude.{◌≡◌, ℕ, List, [], ◌∷◌, ◌++◌, IfOk, OnOk, OnErr, MatchOption, Some};
ghost use Rattle.std.specs.Io.KnownBytes.{prepend_known, Consumes, IsAtEnd, Keeps};
ghost use Rattle.tu_outside.specs.Events.{Takes};

use std::io;
use std::io::Read;
use std::marker::Model;

const SIZE: usize = 4096;

#[derive(Drop)]
pub struct InputBuffer {
    bytes: [u8; SIZE],
    start: usize,
    end: usize,
}

impl Model for InputBuffer {
    ghost use Rattle.std.specs.Prelude.{ℕ, List, ◌≤◌, drop, take};

    ghost Value = { List ℕ };

    ghost view = { λ b. drop b.start (take b.end b.bytes) };

    ghost invariant = { λ b. (b.start ≤ b.end) × (b.end ≤ 4096) };
}

impl InputBuffer {
    pub fn new() -> Self
        ensures { result ≡ [] }
    {
        InputBuffer {
            bytes: [0; SIZE],
            start: 0,
            end: 0,
        }
    }

    // The next byte, or None at the source's end. The source is asked only where nothing is left.
    pub fn next<R: Read>(&mut self, source: &mut R) -> io::Result<Option<u8>>
        ensures taken { IfOk result (λ byte. (rest : List ℕ) → R.remaining source.old ≡ Some rest
            → Takes (Some (self.old ++ rest)) byte (prepend_known self.new (R.remaining source.new))) }
        ensures same_buffer { OnErr result (self.new ≡ self.old) }
        ensures same_source { OnErr result (Keeps (R.remaining source.old) (R.remaining source.new)) }
    {
        if let Some(byte) = self.take() {
            return Ok(Some(byte));
        }
        match self.fill(source) {
            Ok(()) => Ok(self.take()),
            Err(error) => Err(error),
        }
    }

    fn fill<R: Read>(&mut self, source: &mut R) -> io::Result<()>
        ensures filled { OnOk result (Consumes (R.remaining source.old) (R.remaining source.new) self.new) }
        ensures end { OnOk result (self.new ≡ [] → IsAtEnd (R.remaining source.new)) }
        ensures empty { OnErr result (self.new ≡ []) }
        ensures same_source { OnErr result (Keeps (R.remaining source.old) (R.remaining source.new)) }
    {
        self.start = 0;
        self.end = 0;
        match source.read(&mut self.bytes) {
            Ok(count) => {
                self.end = count;
                Ok(())
            }
            Err(error) => Err(error),
        }
    }

    fn take(&mut self) -> Option<u8>
        ensures { MatchOption result ((self.old ≡ []) × (self.new ≡ [])) (λ byte. self.old ≡ byte ∷ self.new) }
    {
        if self.start == self.end {
            return None;
        }
        let byte = self.bytes[self.start];
        self.start += 1;
        Some(byte)
    }
}
