// The instruction at pc.

ghost use Rattle.std.specs.Prelude.{◌≡◌, ◌<◌, ◌≤◌, ◌+◌, ◌*◌, ◌%◌, length, IfSome, option_map};
ghost use Rattle.rv_isa.specs.Encoding.{Fits, decoding};
ghost use Rattle.rv_isa.specs.Step.{fetched, step};
ghost use Rattle.rv_machine.specs.Lists.{memory_of, text_in, cpu_at, space_at};
ghost use Rattle.rv_machine.specs.Seen.{seen, AsksBelow, IsDecoded};

use crate::execute::run_one;
use crate::memory::word;
use crate::stepped::Stepped;
use rv_isa::{FaultKind, Instr, decode, decoded_fits};
use tu_base::TEXT_AT;

// Decodes the word at pc: None past the text, Some(None) where the word is no instruction.
#[inline(always)]
fn fetch_word(words: u32, memory: &[u8], pc: u32) -> Option<Option<Instr>>
    requires text { 4 * words ≤ length memory.now }
    requires end { TEXT_AT + length memory.now < 4294967296 }
    requires start { TEXT_AT ≤ pc }
    requires aligned { pc % 4 ≡ 0 }
    ensures is { result ≡ option_map decoding (fetched (space_at words memory.now) pc) }
    ensures fits { IfSome result (λ entry. IfSome entry Fits) }
    ensures place { IfSome result (λ entry. pc + 4 < 4294967296) }
{
    decoded_fits();
    if (pc - TEXT_AT) / 4 < words {
        Some(decode(word(memory, (pc - TEXT_AT) as usize)))
    } else {
        None
    }
}

// The instruction at pc, decoded before or now: None where pc is no place of the text.
#[inline(always)]
fn fetch(decoded: &[Option<Instr>], words: u32, memory: &[u8], pc: u32) -> Option<Option<Instr>>
    requires decoded { IsDecoded decoded.now (text_in words (memory_of memory.now)) }
    requires text { 4 * words ≤ length memory.now }
    requires end { TEXT_AT + length memory.now < 4294967296 }
    ensures is { result ≡ option_map decoding (fetched (space_at words memory.now) pc) }
    ensures fits { IfSome result (λ entry. IfSome entry Fits) }
    ensures place { IfSome result (λ entry. pc + 4 < 4294967296) }
{
    if pc < TEXT_AT || pc % 4 != 0 {
        return None;
    }
    match decoded.get(((pc - TEXT_AT) / 4) as usize) {
        Some(entry) => Some(*entry),
        None => fetch_word(words, memory, pc),
    }
}

// Runs the instruction at pc.
#[inline(always)]
#[tactic(auto, using(crate::proofs::Texts::executed))]
pub fn step(
    decoded: &[Option<Instr>],
    words: u32,
    registers: &mut [u32; 32],
    memory: &mut [u8],
    pc: u32,
) -> Stepped
    requires decoded { IsDecoded decoded.now (text_in words (memory_of memory.old)) }
    requires text { 4 * words ≤ length memory.old }
    requires end { TEXT_AT + length memory.old < 4294967296 }
    ensures asks { AsksBelow result pc (TEXT_AT + length memory.old) }
    ensures is { seen result (cpu_at registers.new memory.new pc) ≡ step (space_at words memory.old) (cpu_at registers.old memory.old pc) }
{
    match fetch(decoded, words, memory, pc) {
        None => Stepped::Faults(FaultKind::Fetch),
        Some(None) => Stepped::Faults(FaultKind::Illegal),
        Some(Some(op)) => run_one(op, registers, words, memory, pc),
    }
}
