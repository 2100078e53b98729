// Many instructions.

ghost use Rattle.std.specs.Prelude.{◌≡◌, ◌<◌, ◌≤◌, ◌+◌, ◌*◌, length};
ghost use Rattle.tu_base.specs.declared.limits.TheConstants.{TEXT_AT};
ghost use Rattle.rv_image.specs.Steps.{steps};
ghost use Rattle.rv_machine.specs.Lists.{memory_of, text_in, space_at, cpu_at};
ghost use Rattle.rv_machine.specs.Seen.{IsDecoded, Grows, RestsWell, rested};

use crate::step::step;
use crate::stepped::Stepped;
use rv_isa::{FaultKind, Instr, Service};

// Why a run is at rest.
#[derive(Clone, Copy, PartialEq, Eq, Debug)]
pub enum Cause {
    Full,
    Service(Service),
    Fault(FaultKind),
}

// Where a run is at rest, and how many instructions were counted.
#[derive(Clone, Copy, PartialEq, Eq, Debug)]
pub struct Halt {
    pub cause: Cause,
    pub count: u64,
    pub pc: u32,
}

// Runs at most this many instructions, after some were counted.
pub fn run(
    decoded: &[Option<Instr>],
    words: u32,
    registers: &mut [u32; 32],
    memory: &mut [u8],
    start: u32,
    counted: u64,
    most: u64,
) -> Halt
    requires decoded { IsDecoded decoded.now (text_in words (memory_of memory.old)) }
    requires text { 4 * words ≤ length memory.old }
    requires end { TEXT_AT + length memory.old < 4294967296 }
    requires count { counted + most < 18446744073709551616 }
    ensures count { result.count ≤ counted + most }
    ensures grows { Grows result.cause counted result.count }
    ensures lent { RestsWell result.cause (TEXT_AT + length memory.old) }
    ensures text { text_in words (memory_of memory.new) ≡ text_in words (memory_of memory.old) }
    ensures is { rested result registers.new memory.new ≡ steps (space_at words memory.old) most counted (cpu_at registers.old memory.old start) }
{
    let mut pc = start;
    for done in 0..most {
        match step(decoded, words, registers, memory, pc) {
            Stepped::To(to) => pc = to,
            Stepped::Asks(service) => {
                return Halt {
                    cause: Cause::Service(service),
                    count: counted + done + 1,
                    pc: pc + 4,
                };
            }
            Stepped::Faults(kind) => {
                return Halt {
                    cause: Cause::Fault(kind),
                    count: counted + done,
                    pc,
                };
            }
        }
    }
    Halt {
        cause: Cause::Full,
        count: counted + most,
        pc,
    }
}
