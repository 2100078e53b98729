ghost use Rattle.std.specs.Prelude.{◌≡◌, ◌≢◌, ◌↔◌, [], ◌∷◌, IsTrue, OnOk, OnErr, IfOk, ◌+◌, nat_le, length, drop};
ghost use Rattle.tu_outside.specs.Causes.{HasCauseAt};
ghost use Rattle.rv_image.specs.Streams.{Free as is_free, kept, is_named as has_name, state as state_of};
ghost use Rattle.rv_host.specs.Slots.{shown, with_trace, next_byte, first, rest, after_next, put_answer, after_put, append_answer, after_append};

use std::alloc::Global;
use tu_base::{Bytes, MOST_FILE_BYTES, Memory};
use tu_outside::{Cabinet, CabinetError};

// The most bytes of a file that a stream reads or writes.
pub const MOST: usize = MOST_FILE_BYTES as usize;

// One of a program's streams.
#[derive(Drop)]
pub enum Stream {
    Free,

    // What is left to read begins at `next`.
    Reading {
        name: Bytes,
        contents: Bytes,
        next: usize,
    },

    // The file is kept once the stream is closed.
    Writing {
        name: Bytes,
        contents: Bytes,
    },
}

impl Stream {
    pub fn is_free(&self) -> bool
        ensures { IsTrue result ↔ (shown self.now ≡ is_free) }
    {
        matches!(self, Stream::Free)
    }

    pub fn is_named(&self, name: &[u8]) -> bool
        ensures { result ≡ has_name name.now (shown self.now) }
    {
        match self {
            Stream::Free => false,
            Stream::Reading { name: own, .. } => name == own.as_slice(),
            Stream::Writing { name: own, .. } => name == own.as_slice(),
        }
    }

    pub fn state(&self) -> u32
        ensures { result ≡ state_of (shown self.now) }
    {
        match self {
            Stream::Free => 0,
            Stream::Reading { .. } => 1,
            Stream::Writing { .. } => 2,
        }
    }

    // The next byte, where one is left to read.
    pub fn next(&mut self) -> Option<u8>
        ensures byte { result ≡ next_byte (shown self.old) }
        ensures left { shown self.new ≡ after_next (shown self.old) }
    {
        match self {
            Stream::Free | Stream::Writing { .. } => None,
            Stream::Reading { contents, next, .. } => take_byte(contents.as_slice(), next),
        }
    }

    // Appends bytes to a file that is written, all of them or none. The answer is the program's.
    pub fn put(&mut self, bytes: &[u8]) -> Result<u32, Memory>
        ensures answer { IfOk result (λ answer. answer ≡ put_answer (shown self.old) bytes.now) }
        ensures put { OnOk result (shown self.new ≡ after_put (shown self.old) bytes.now) }
        ensures same { OnErr result (shown self.new ≡ shown self.old) }
        ensures open { OnErr result (shown self.old ≢ is_free) }
    {
        match self {
            Stream::Free | Stream::Reading { .. } => Ok(1),
            Stream::Writing { contents, .. } => append(contents, bytes),
        }
    }

    // Keeps a file that is written.
    pub fn keep<K: Cabinet>(&self, alloc: Global, cabinet: &mut K) -> Result<(), CabinetError>
        ensures kept { OnOk result (K.files cabinet.new ≡ with_trace (K.files cabinet.old) (kept (shown self.now ∷ []))) }
        ensures same { OnErr result (K.files cabinet.new ≡ K.files cabinet.old) }
        ensures open { OnErr result (shown self.now ≢ is_free) }
        ensures cause { HasCauseAt CabinetError.Failed (K.faults cabinet.old) (K.faults cabinet.new) result }
    {
        match self {
            Stream::Writing { name, contents } => cabinet.keep(alloc, name, contents),
            Stream::Free | Stream::Reading { .. } => Ok(()),
        }
    }
}

fn append(contents: &mut Bytes, bytes: &[u8]) -> Result<u32, Memory>
    ensures answer { IfOk result (λ answer. answer ≡ append_answer contents.old bytes.now) }
    ensures appended { OnOk result (contents.new ≡ after_append contents.old bytes.now) }
    ensures same { OnErr result (contents.new ≡ contents.old) }
{
    if !fits(contents, bytes) {
        return Ok(2);
    }
    contents.extend(bytes)?;
    Ok(0)
}

fn fits(contents: &Bytes, bytes: &[u8]) -> bool
    ensures { result ≡ nat_le (length contents.now + length bytes.now) MOST_FILE_BYTES }
{
    bytes.len() <= MOST && contents.len() <= MOST - bytes.len()
}

fn take_byte(bytes: &[u8], next: &mut usize) -> Option<u8>
    ensures byte { result ≡ first (drop next.old bytes.now) }
    ensures left { drop next.new bytes.now ≡ rest (drop next.old bytes.now) }
{
    if *next >= bytes.len() {
        return None;
    }
    let byte = bytes[*next];
    *next += 1;
    Some(byte)
}
