// What a machine begins with.

ghost use Rattle.std.specs.Prelude.{◌≡◌, ◌<◌, ◌≤◌, ◌+◌, ◌*◌, ℕ, IfOk, length, slice_index};
ghost use Rattle.tu_base.specs.declared.limits.TheConstants.{MOST_TEXT_WORDS};
ghost use Rattle.rv_isa.specs.Step.{with_any};
ghost use Rattle.rv_image.specs.Start.{start_memory, no_registers};
ghost use Rattle.rv_machine.specs.Lists.{memory_of, registers_of, text_in};
ghost use Rattle.rv_machine.specs.Seen.{IsDecoded, kept};

use crate::memory::put_word;
use crate::registers::{cleared, put_any};
use rv_isa::{Instr, decode, decoded_fits};
use std::alloc::{AllocError, Global};

// The bytes that a machine may take in all.
const MOST: usize = 134496256;

// The bytes of one decoded word.
const ENTRY: usize = 12;

const _: () = prove!(size_of::<Option<Instr>>() == ENTRY);

// The decoded text, or nothing where that does not fit beside the bytes that are taken.
pub fn decoded(alloc: Global, words: &[u32], taken: usize) -> Result<Vec<Option<Instr>>, AllocError>
    requires text { length words.now ≤ MOST_TEXT_WORDS }
    requires taken { taken < 4294967296 }
    ensures is { IfOk result (λ v. v.items ≡ kept taken words.now) }
    ensures decoded { IfOk result (λ v. IsDecoded v.items words.now) }
{
    decoded_fits();
    if taken + words.len() * ENTRY > MOST {
        return Ok(Vec::new(alloc));
    }
    let mut decoded = Vec::with_capacity(alloc, words.len())?;
    for word in words {
        decoded.push(decode(*word))?;
    }
    Ok(decoded)
}

// Puts the words of a text into empty memory.
fn put_text(bytes: &mut [u8], words: &[u32])
    requires room { 4 * length words.now ≤ length bytes.old }
    requires empty { (i : ℕ) → slice_index bytes.old i ≡ 0 }
    ensures { memory_of bytes.new ≡ start_memory words.now }
{
    for (k, word) in words.iter().enumerate() {
        put_word(bytes, 4 * k, *word);
    }
}

// Memory of this many bytes with a text at its start, and zeros behind it.
pub fn memory_with(alloc: Global, words: &[u32], size: usize) -> Result<Vec<u8>, AllocError>
    requires { 4 * length words.now ≤ size }
    ensures size { IfOk result (λ v. length v.items ≡ size) }
    ensures is { IfOk result (λ v. memory_of v.items ≡ start_memory words.now) }
    ensures text { IfOk result (λ v. text_in (length words.now) (memory_of v.items) ≡ words.now) }
{
    let mut memory = vec![in alloc; 0u8; size]?;
    put_text(&mut memory, words);
    Ok(memory)
}

// The registers at the start, of which only three are not 0.
pub fn registers_at(globals_at: u32, heap_at: u32, end: u32) -> [u32; 32]
    ensures { registers_of result ≡ with_any (with_any (with_any no_registers 2 end) 3 globals_at) 4 heap_at }
{
    let mut registers = cleared();
    put_any(&mut registers, 2, end);
    put_any(&mut registers, 3, globals_at);
    put_any(&mut registers, 4, heap_at);
    registers
}
