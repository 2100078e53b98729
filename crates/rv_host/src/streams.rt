ghost use Rattle.std.specs.Prelude.{◌≡◌, ◌≢◌, ◌≤◌, ◌-◌, ◌+◌, length, replicate, slice_set, OnOk, OnErr, IfOk, IfSome, IsNone, ◌↔◌, ◌⊎◌, ◌<◌, ⊤, MatchOption};
ghost use Rattle.std.specs.List.{list_any};
ghost use Rattle.tu_outside.specs.Causes.{HasCauseAt};
ghost use Rattle.rv_image.specs.Streams.{Free, kept, is_named, free_stream, state as state_of};
ghost use Rattle.rv_host.specs.Slots.{shown, stream_at, with_trace, HasPartOf, next_byte, after_next, put_answer, after_put, placed};

use crate::stream::Stream;
use std::alloc::Global;
use std::marker::Model;
use std::mem;
use tu_base::Memory;
use tu_outside::{Cabinet, CabinetError};

// How many streams a program has. They have the numbers from 1 on.
const COUNT: usize = 10;

// The streams of a program, of which some are free.
#[derive(Drop)]
pub struct Streams {
    slots: [Stream; COUNT],
}

impl Model for Streams {
    ghost use Rattle.std.specs.Prelude.{◌≡◌, List, map, length};
    ghost use Rattle.rv_image.specs.Streams.{Stream};
    ghost use Rattle.rv_host.specs.Slots.{shown};

    ghost Value = { List Stream };

    ghost view = { λ s. map shown s.slots };

    ghost invariant = { λ s. length s.slots ≡ 10 };
}

impl Streams {
    // All of them are free, which takes no memory.
    pub fn make() -> Self
        ensures { result ≡ replicate 10 Free }
    {
        Streams {
            slots: [
                Stream::Free,
                Stream::Free,
                Stream::Free,
                Stream::Free,
                Stream::Free,
                Stream::Free,
                Stream::Free,
                Stream::Free,
                Stream::Free,
                Stream::Free,
            ],
        }
    }

    // The least number of a free stream.
    pub fn least_free(&self) -> Option<u32>
        ensures least { MatchOption result (free_stream self.now 1 ≡ 0) (λ number. free_stream self.now 1 ≡ number) }
        ensures place { MatchOption result ⊤ (λ number. (1 ≤ number) × (number ≤ 10)) }
    {
        for (index, stream) in self.slots.iter().enumerate() {
            if stream.is_free() {
                return Some(index as u32 + 1);
            }
        }
        None
    }

    // Whether a stream of this name is open.
    pub fn is_open(&self, name: &[u8]) -> bool
        ensures { result ≡ list_any (is_named name.now) self.now }
    {
        is_any_named(&self.slots, name)
    }

    // Puts a stream in the place of another.
    pub fn set(&mut self, number: u32, stream: Stream)
        requires least { 1 ≤ number }
        requires most { number ≤ 10 }
        ensures { self.new ≡ placed self.old number (shown stream) }
    {
        self.slots[number as usize - 1] = stream;
    }

    // Frees a stream, and hands out what it was.
    pub fn take(&mut self, number: u32) -> Stream
        ensures was { shown result ≡ stream_at self.old number }
        ensures left { self.new ≡ placed self.old number Free }
    {
        match index_of(number) {
            Some(index) => mem::replace(&mut self.slots[index], Stream::Free),
            None => Stream::Free,
        }
    }

    // How a stream is open: 0 not at all, 1 to be read, 2 to be written.
    pub fn state(&self, number: u32) -> u32
        ensures { result ≡ state_of (stream_at self.now number) }
    {
        match index_of(number) {
            Some(index) => self.slots[index].state(),
            None => 0,
        }
    }

    // The next byte of a stream, where one is left to read.
    pub fn next(&mut self, number: u32) -> Option<u8>
        ensures byte { result ≡ next_byte (stream_at self.old number) }
        ensures left { self.new ≡ placed self.old number (after_next (stream_at self.old number)) }
    {
        match index_of(number) {
            Some(index) => self.slots[index].next(),
            None => None,
        }
    }

    // Appends bytes to a stream that is written, all of them or none. The answer is the program's.
    pub fn put(&mut self, number: u32, bytes: &[u8]) -> Result<u32, Memory>
        ensures answer { IfOk result (λ answer. answer ≡ put_answer (stream_at self.old number) bytes.now) }
        ensures put { OnOk result (self.new ≡ placed self.old number (after_put (stream_at self.old number) bytes.now)) }
        ensures open { OnErr result (stream_at self.old number ≢ Free) }
    {
        match index_of(number) {
            Some(index) => self.slots[index].put(bytes),
            None => Ok(1),
        }
    }

    // Keeps each file that is written, in the order of the numbers.
    pub fn keep_all<K: Cabinet>(&self, alloc: Global, cabinet: &mut K) -> Result<(), CabinetError>
        ensures kept { OnOk result (K.files cabinet.new ≡ with_trace (K.files cabinet.old) (kept self.now)) }
        ensures part { HasPartOf (K.files cabinet.old) (K.files cabinet.new) (kept self.now) }
        ensures open { OnErr result (self.now ≢ replicate 10 Free) }
        ensures cause { HasCauseAt CabinetError.Failed (K.faults cabinet.old) (K.faults cabinet.new) result }
    {
        for stream in &self.slots {
            match stream.keep(alloc, cabinet) {
                Ok(()) => {}
                Err(error) => return Err(error),
            }
        }
        Ok(())
    }
}

fn is_any_named(slots: &[Stream], name: &[u8]) -> bool
    ensures { result ≡ list_any (λ s. is_named name.now (shown s)) slots.now }
{
    slots.iter().any(|stream| stream.is_named(name))
}

// The place of a number that there is.
fn index_of(number: u32) -> Option<usize>
    ensures place { IfSome result (λ index. (index + 1 ≡ number) × (index < 10)) }
    ensures none { IsNone result ↔ ((number ≡ 0) ⊎ (10 < number)) }
{
    let index = number.checked_sub(1)? as usize;
    (index < COUNT).then_some(index)
}
