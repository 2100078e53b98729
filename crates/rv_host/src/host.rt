ghost use Rattle.std.specs.Prelude.{◌≡◌, ◌≤◌, ℕ, List, Some, None};
ghost use Rattle.tu_base.specs.declared.event.Event.{Event};
ghost use Rattle.tu_base.specs.Files.{Files};
ghost use Rattle.tu_outside.specs.Causes.{Rose};
ghost use Rattle.rv_host.specs.Host.{run_on, Leaves};

use crate::service::{Reply, ServiceError, serve};
use crate::streams::Streams;
use rv_isa::FaultKind;
use rv_machine::{Machine, Pause, runs_rest};
use std::alloc::Global;
use tu_base::{Kind, Line};
use tu_outside::{Cabinet, Console};

/// How a run ended.
#[derive(Clone, Copy, Debug, PartialEq, Eq)]
pub enum HostEnd {
    /// The program came to its end. Each file that it was still writing is kept.
    Ended,
    /// The program was stopped by an exception at a line. Each file that it was still writing is kept.
    Stopped { kind: Kind, line: Line },
    /// As many instructions as were allowed have run. No file that was still written is kept.
    Spent,
    /// The next instruction, at this place, does not run. No file that was still written is kept.
    Fault { kind: FaultKind, pc: u32 },
    /// The console failed. Its fault count has risen.
    ConsoleFault,
    /// The cabinet failed, which comes only after the program has asked to open a file. Its fault
    /// count has risen.
    CabinetFault,
    /// Want of memory, which comes only after the program has asked to open a file.
    Memory,
}

/// Runs a machine from its start for at most this many instructions, and serves it with the console
/// and the files of the cabinet.
///
/// The program has ten streams, with the numbers from 1 on. Each reads or writes a file of at most
/// 16,777,216 bytes. A file that is read is fetched when it is opened, and one that is written is kept
/// when its stream is closed or the program ends or is stopped. Before the program has asked to open a
/// file the cabinet does not fail, and memory does not run out.
///
/// `Ended`, `Stopped`, `Spent` and `Fault` are the verdicts of the program's run on the console's input
/// and the cabinet's files. After `ConsoleFault`, `CabinetFault` and `Memory` a first part of what that
/// run does stands at the console and in the cabinet, with all that it did before the last instruction.
pub fn run<C: Console, K: Cabinet>(
    alloc: Global,
    machine: &mut Machine,
    console: &mut C,
    cabinet: &mut K,
    budget: u64,
) -> HostEnd
    requires ready { machine.old.waiting ≡ None }
    requires fresh { machine.old.count ≡ 0 }
    ensures within { machine.new.count ≤ budget }
    ensures spent { result ≡ HostEnd.Spent → machine.new.count ≡ budget }
    ensures later { C.faults console.old ≤ C.faults console.new }
    ensures cabinet_later { K.faults cabinet.old ≤ K.faults cabinet.new }
    ensures console_fault { result ≡ HostEnd.ConsoleFault → Rose (C.faults console.old) (C.faults console.new) }
    ensures cabinet_fault { result ≡ HostEnd.CabinetFault → Rose (K.faults cabinet.old) (K.faults cabinet.new) }
    ensures leaves { (input : List ℕ) (events : List Event) (files : Files) → C.left console.old ≡ Some input → C.events console.old ≡ Some events → K.files cabinet.old ≡ Some files
        → Leaves (run_on machine.old input files) budget result machine.new.count events files
        (record { left = C.left console.new; events = C.events console.new; files = K.files cabinet.new }) }
{
    runs_rest();
    let mut streams = Streams::make();
    'turns: loop {
        match machine.advance(budget - machine.count()) {
            Pause::Paused => return HostEnd::Spent,
            Pause::Fault { kind, pc } => return HostEnd::Fault { kind, pc },
            Pause::Ask(service) => {
                match serve(alloc, machine, service, &mut streams, console, cabinet) {
                    Ok(Reply::Word(word)) => machine.answer(word),
                    Ok(Reply::Ended) => return HostEnd::Ended,
                    Ok(Reply::Stopped { kind, line }) => return HostEnd::Stopped { kind, line },
                    Err(ServiceError::Console) => return HostEnd::ConsoleFault,
                    Err(ServiceError::Cabinet) => return HostEnd::CabinetFault,
                    Err(ServiceError::Memory) => return HostEnd::Memory,
                }
            }
        }
    }
}
