// Loads and stores, in the bytes of memory from 65,536 on.

ghost use Rattle.std.specs.Prelude.{◌≡◌, ◌<◌, ◌≤◌, ◌+◌, ◌-◌, ◌%◌, length};
ghost use Rattle.rv_isa.specs.Memory.{load_size, store_size, loaded, stored, byte_at, half_at, word_at, with_byte, with_half, with_word};
ghost use Rattle.rv_machine.specs.Lists.{memory_of};

use rv_isa::{LoadKind, StoreKind};
use tu_base::TEXT_AT;

#[inline]
pub fn load_size(kind: LoadKind) -> u32
    ensures { result ≡ load_size kind }
{
    match kind {
        LoadKind::Byte => 1,
        LoadKind::Half => 2,
        LoadKind::Word => 4,
        LoadKind::ByteUnsigned => 1,
        LoadKind::HalfUnsigned => 2,
    }
}

#[inline]
pub fn store_size(kind: StoreKind) -> u32
    ensures { result ≡ store_size kind }
{
    match kind {
        StoreKind::Byte => 1,
        StoreKind::Half => 2,
        StoreKind::Word => 4,
    }
}

#[inline]
#[tactic(auto, unfolding(crate::specs::Lists::memory_of))]
fn byte(bytes: &[u8], at: usize, after: usize) -> u32
    requires { at + after < length bytes.now }
    ensures is { result ≡ byte_at (memory_of bytes.now) (at + TEXT_AT + after) }
    ensures below { result < 256 }
{
    bytes[at + after] as u32
}

#[inline]
fn half(bytes: &[u8], at: usize) -> u32
    requires { at + 2 ≤ length bytes.now }
    ensures is { result ≡ half_at (memory_of bytes.now) (at + TEXT_AT) }
    ensures below { result < 65536 }
{
    byte(bytes, at, 0) + 256 * byte(bytes, at, 1)
}

#[inline]
pub fn word(bytes: &[u8], at: usize) -> u32
    requires { at + 4 ≤ length bytes.now }
    ensures { result ≡ word_at (memory_of bytes.now) (at + TEXT_AT) }
{
    byte(bytes, at, 0)
        + 256 * byte(bytes, at, 1)
        + 65536 * byte(bytes, at, 2)
        + 16777216 * byte(bytes, at, 3)
}

#[inline]
pub fn load(kind: LoadKind, bytes: &[u8], address: u32) -> u32
    requires start { TEXT_AT ≤ address }
    requires end { address + load_size kind ≤ TEXT_AT + length bytes.now }
    ensures { result ≡ loaded kind (memory_of bytes.now) address }
{
    let at = (address - TEXT_AT) as usize;
    match kind {
        LoadKind::Byte => ((byte(bytes, at, 0) + 128) % 256).wrapping_sub(128),
        LoadKind::Half => ((half(bytes, at) + 32768) % 65536).wrapping_sub(32768),
        LoadKind::Word => word(bytes, at),
        LoadKind::ByteUnsigned => byte(bytes, at, 0),
        LoadKind::HalfUnsigned => half(bytes, at),
    }
}

#[inline]
#[tactic(auto, unfolding(crate::specs::Lists::memory_of, rv_isa::specs::Memory::with_byte))]
fn put_byte(bytes: &mut [u8], at: usize, after: usize, value: u32)
    requires end { at + after < length bytes.old }
    requires value { value < 256 }
    ensures { memory_of bytes.new ≡ with_byte (memory_of bytes.old) (at + TEXT_AT + after) value }
{
    bytes[at + after] = value as u8;
}

#[inline]
fn put_half(bytes: &mut [u8], at: usize, value: u32)
    requires { at + 2 ≤ length bytes.old }
    ensures { memory_of bytes.new ≡ with_half (memory_of bytes.old) (at + TEXT_AT) value }
{
    put_byte(bytes, at, 0, value % 256);
    put_byte(bytes, at, 1, value / 256 % 256);
}

#[inline]
pub fn put_word(bytes: &mut [u8], at: usize, value: u32)
    requires { at + 4 ≤ length bytes.old }
    ensures { memory_of bytes.new ≡ with_word (memory_of bytes.old) (at + TEXT_AT) value }
{
    put_half(bytes, at, value);
    put_byte(bytes, at, 2, value / 65536 % 256);
    put_byte(bytes, at, 3, value / 16777216);
}

// Stores the low bytes of a value.
#[inline]
pub fn store(kind: StoreKind, bytes: &mut [u8], address: u32, value: u32)
    requires start { TEXT_AT ≤ address }
    requires end { address + store_size kind ≤ TEXT_AT + length bytes.old }
    ensures { memory_of bytes.new ≡ stored kind (memory_of bytes.old) address value }
{
    let at = (address - TEXT_AT) as usize;
    match kind {
        StoreKind::Byte => put_byte(bytes, at, 0, value % 256),
        StoreKind::Half => put_half(bytes, at, value),
        StoreKind::Word => put_word(bytes, at, value),
    }
}
