ghost use Rattle.std.specs.Prelude.{◌≡◌, ◌≢◌, ◌<◌, ◌≤◌, ◌+◌, ◌*◌, IsTrue, ◌↔◌, length, None, IfOk};
ghost use Rattle.rv_image.specs.Start.{start_space, start_cpu};
ghost use Rattle.rv_image.specs.Steps.{steps};
ghost use Rattle.rv_image.specs.Streams.{bytes_at};
ghost use Rattle.rv_image.specs.Run.{answered};
ghost use Rattle.rv_machine.specs.Lists.{memory_of};
ghost use Rattle.rv_machine.specs.Seen.{Within};
ghost use Rattle.rv_machine.specs.Device.{Device, IsSound, came, space_of, cpu_of, waits_for, IsPlace, Grew, lends};

use crate::load::{decoded, memory_with, registers_at};
use crate::pause::Pause;
use crate::registers::put_any;
use crate::run::{Cause, run};
use rv_image::Image;
use rv_isa::{Instr, Service};
use std::alloc::Global;
use std::marker::Model;
use tu_base::{HEAP_WORDS, Memory, STACK_WORDS, TEXT_AT};

/// A machine with its program.
#[derive(Drop)]
pub struct Machine {
    decoded: Vec<Option<Instr>>,
    words: u32,
    memory: Vec<u8>,
    registers: [u32; 32],
    pc: u32,
    counted: u64,
    waiting: Option<Service>,
}

impl Model for Machine {
    ghost Value = { Device };

    ghost view = { λ m. record { words = m.words; bytes = m.memory.items; registers = m.registers; pc = m.pc; count = m.counted; waiting = m.waiting } };

    ghost invariant = { λ m. IsSound m.decoded.items m.words m.memory.items m.waiting };
}

impl Machine {
    /// A machine at the start of an image. It takes at most 134,496,256 bytes, and nothing later.
    /// The error is want of memory.
    pub fn load(alloc: Global, image: &Image) -> Result<Machine, Memory>
        ensures space { IfOk result (λ m. space_of m ≡ start_space image.now) }
        ensures cpu { IfOk result (λ m. cpu_of m ≡ start_cpu image.now) }
        ensures count { IfOk result (λ m. m.count ≡ 0) }
        ensures waiting { IfOk result (λ m. m.waiting ≡ None) }
    {
        let text = image.text().as_slice();
        let words = text.len() as u32;
        let globals_at = TEXT_AT + 4 * words;
        let heap_at = globals_at + 4 * image.globals();
        let end = heap_at + 4 * (HEAP_WORDS + STACK_WORDS);
        let size = (end - TEXT_AT) as usize;
        let memory = memory_with(alloc, text, size)?;
        let decoded = decoded(alloc, text, size)?;
        Ok(Machine {
            decoded,
            words,
            memory,
            registers: registers_at(globals_at, heap_at, end),
            pc: TEXT_AT + image.entry(),
            counted: 0,
            waiting: None,
        })
    }

    /// Runs at most this many instructions of a machine that is not waiting. It comes to `Ask` exactly at an
    /// ECALL that asks for a service, to `Fault` exactly where the next instruction faults before that many
    /// have run, and else to `Paused`.
    pub fn advance(&mut self, most: u64) -> Pause
        requires ready { self.old.waiting ≡ None }
        requires room { self.old.count + most < 18446744073709551616 }
        ensures run { came result self.new ≡ steps (space_of self.old) most self.old.count (cpu_of self.old) }
        ensures space { space_of self.new ≡ space_of self.old }
        ensures waiting { self.new.waiting ≡ waits_for result }
        ensures grows { Grew result self.old.count self.new.count }
        ensures count { self.new.count ≤ self.old.count + most }
        ensures place { IsPlace result self.new.pc }
    {
        let halt = run(
            &self.decoded,
            self.words,
            &mut self.registers,
            &mut self.memory,
            self.pc,
            self.counted,
            most,
        );
        self.pc = halt.pc;
        self.counted = halt.count;
        match halt.cause {
            Cause::Full => Pause::Paused,
            Cause::Service(service) => {
                self.waiting = Some(service);
                Pause::Ask(service)
            }
            Cause::Fault(kind) => Pause::Fault { kind, pc: halt.pc },
        }
    }

    /// Answers the service that the machine waits for: the reply comes into x10.
    pub fn answer(&mut self, reply: u32)
        requires { self.old.waiting ≢ None }
        ensures cpu { cpu_of self.new ≡ answered (cpu_of self.old) reply }
        ensures space { space_of self.new ≡ space_of self.old }
        ensures bytes { self.new.bytes ≡ self.old.bytes }
        ensures count { self.new.count ≡ self.old.count }
        ensures waiting { self.new.waiting ≡ None }
    {
        put_any(&mut self.registers, 10, reply);
        self.waiting = None;
    }

    /// Whether the machine waits for an answer.
    pub fn waits(&self) -> bool
        ensures { IsTrue result ↔ self.now.waiting ≢ None }
    {
        self.waiting.is_some()
    }

    /// How many instructions were counted since the start.
    pub fn count(&self) -> u64
        ensures { result ≡ self.now.count }
    {
        self.counted
    }

    /// The bytes that the service names for which the machine waits, and none where it names none.
    pub fn lent(&self) -> &[u8]
        requires { self.now.waiting ≢ None }
        ensures { result.now ≡ lends (memory_of self.now.bytes) self.now.waiting }
    {
        match self.waiting {
            Some(Service::PutConsole { at, length }) => self.part(at, length),
            Some(Service::Open { at, length, .. }) => self.part(at, length),
            Some(Service::PutStream { at, length, .. }) => self.part(at, length),
            _ => &[],
        }
    }

    fn part(&self, at: u32, size: u32) -> &[u8]
        requires { Within (TEXT_AT + length self.now.bytes) at size }
        ensures { result.now ≡ bytes_at (memory_of self.now.bytes) at size }
    {
        if size == 0 {
            return &[];
        }
        let from = (at - TEXT_AT) as usize;
        &self.memory[from..from + size as usize]
    }
}
