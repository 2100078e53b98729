// What a host does about a service.

ghost use Rattle.std.specs.Prelude.{◌≡◌, ◌≤◌, List, Option, Some, IfErr, Ok, map};
ghost use Rattle.tu_base.specs.Files.{Files};
ghost use Rattle.tu_base.specs.Trace.{Put};
ghost use Rattle.tu_outside.specs.Causes.{HasCauseAt};
ghost use Rattle.rv_image.specs.Streams.{Stream, World, Finishes, StoppedBy, Replies, traced, got, served};
ghost use Rattle.rv_machine.specs.Lists.{memory_of};
ghost use Rattle.rv_host.specs.Served.{seen, served_as, Serves, HasKind};

use crate::files::{close, finish, get_stream, open, put_stream};
use crate::streams::Streams;
use rv_isa::Service;
use rv_machine::Machine;
use std::alloc::Global;
use tu_base::{Kind, Line, Memory};
use tu_outside::{Cabinet, CabinetError, Console, ConsoleFault};

// What a service comes to: a word for the program, or the end of the run.
#[derive(Clone, Copy, PartialEq, Eq, Debug)]
pub enum Reply {
    Word(u32),
    Ended,
    Stopped { kind: Kind, line: Line },
}

// Why a service was not done. A fault count has risen where a device failed.
#[derive(Clone, Copy, PartialEq, Eq, Debug)]
pub enum ServiceError {
    Console,
    Cabinet,
    Memory,
}

impl From<CabinetError> for ServiceError {
    ghost use Rattle.rv_host.specs.Errors.{service_error};

    ghost from_gives = { λ error e. e ≡ service_error error };

    fn from(error: CabinetError) -> Self {
        match error {
            CabinetError::Failed => ServiceError::Cabinet,
            CabinetError::Memory => ServiceError::Memory,
        }
    }
}

impl From<Memory> for ServiceError {
    ghost use Rattle.rv_host.specs.declared.service.ServiceError.TheVariants.{Memory};

    ghost from_gives = { λ _ e. e ≡ Memory };

    fn from(_: Memory) -> Self {
        ServiceError::Memory
    }
}

// The reply where there is no byte.
pub const NO_BYTE: u32 = u32::MAX;

// Serves a machine that waits for this service.
pub fn serve<C: Console, K: Cabinet>(
    alloc: Global,
    machine: &Machine,
    service: Service,
    streams: &mut Streams,
    console: &mut C,
    cabinet: &mut K,
) -> Result<Reply, ServiceError>
    requires waits { machine.now.waiting ≡ Some service }
    requires kind { HasKind service }
    ensures serves { Serves (λ folder w. served folder (memory_of machine.now.bytes) service w)
        (seen (C.left console.old) (C.events console.old) (K.files cabinet.old) streams.old)
        (seen (C.left console.new) (C.events console.new) (K.files cabinet.new) streams.new) result }
    ensures console { HasCauseAt ServiceError.Console (C.faults console.old) (C.faults console.new) result }
    ensures cabinet { HasCauseAt ServiceError.Cabinet (K.faults cabinet.old) (K.faults cabinet.new) result }
{
    match service {
        Service::End => finish(alloc, streams, cabinet, Reply::Ended),
        Service::Stop { kind, line } => finish(alloc, streams, cabinet, stopped(kind, line)),
        Service::PutConsole { .. } => put_console(console, machine.lent()),
        Service::GetConsole => get_console(console),
        Service::Open { mode, .. } => open(alloc, machine.lent(), mode, streams, cabinet),
        Service::Close { stream } => close(alloc, stream, streams, cabinet),
        Service::PutStream { stream, .. } => put_stream(stream, machine.lent(), streams),
        Service::GetStream { stream } => Ok(Reply::Word(get_stream(stream, streams))),
        Service::State { stream } => Ok(Reply::Word(streams.state(stream))),
    }
}

fn stopped(kind: u32, line: Line) -> Reply
    requires least { 1 ≤ kind }
    requires most { kind ≤ 21 }
    ensures { (w : World) → Finishes (StoppedBy kind line) w ≡ served_as result w }
{
    match Kind::of(kind) {
        Some(kind) => Reply::Stopped { kind, line },
        None => unreachable!(),
    }
}

fn put_console<C: Console>(console: &mut C, bytes: &[u8]) -> Result<Reply, ServiceError>
    ensures serves { (files : Option Files) (streams : List Stream) → Serves (λ _ w. Replies 0 (traced w (map Put bytes.now)))
        (seen (C.left console.old) (C.events console.old) files streams) (seen (C.left console.new) (C.events console.new) files streams) result }
    ensures cause { HasCauseAt ServiceError.Console (C.faults console.old) (C.faults console.new) result }
    ensures only { IfErr result (λ error. error ≡ ServiceError.Console) }
{
    match console.put(bytes) {
        Ok(()) => Ok(Reply::Word(0)),
        Err(ConsoleFault) => Err(ServiceError::Console),
    }
}

fn get_console<C: Console>(console: &mut C) -> Result<Reply, ServiceError>
    ensures serves { (files : Option Files) (streams : List Stream) → Serves (λ _ w. got w w.left)
        (seen (C.left console.old) (C.events console.old) files streams) (seen (C.left console.new) (C.events console.new) files streams) result }
    ensures cause { HasCauseAt ServiceError.Console (C.faults console.old) (C.faults console.new) result }
    ensures only { IfErr result (λ error. error ≡ ServiceError.Console) }
{
    match console.get() {
        Ok(Some(byte)) => Ok(Reply::Word(byte as u32)),
        Ok(None) => Ok(Reply::Word(NO_BYTE)),
        Err(ConsoleFault) => Err(ServiceError::Console),
    }
}
