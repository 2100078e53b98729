// The devices of a command, and how it answers and ends.

use crate::rows::Text;
use rv_image::ImageError;
use rv_isa::FaultKind;
use std::alloc::{AllocError, Global};
use tu_base::{Bytes, Event, Kind, Line, Memory, Numbers, Words};
use tu_check::{Refusal, TypeError};
use tu_outside::{Cabinet, CabinetError, MemoryCabinet, MemoryConsole, MemoryNotes};
use tu_run::{Report, Status, turing};
use tu_scope::ScopeError;
use tu_token::LexError;

/// The devices of a command.
pub struct Outside {
    pub console: MemoryConsole,
    pub cabinet: MemoryCabinet,
    pub notes: MemoryNotes,
}

// Written, so that where the devices are let go there is one call.
impl Drop for Outside {
    fn drop(self) {
        let Outside {
            console: _,
            cabinet: _,
            notes: _,
        } = self;
    }
}

/// Which calls of console, cabinet and notes fail, by their numbers from 1, and the room for events and for bytes
/// of notes.
pub type Plan = ([u64; 3], [u64; 2]);

pub const ROOM: [u64; 2] = [1000, 1000];

pub const AMPLE: Plan = ([0, 0, 0], ROOM);

/// How a command is to end, how many instructions are to be counted, where that is looked at, and what is to be
/// written.
pub type Answer = (End, Option<u64>, Text);

/// Whether something is so.
pub type Truth = Result<bool, CabinetError>;

fn make_console(alloc: Global, failing: u64) -> Result<MemoryConsole, Memory> {
    let failing = Numbers::from_slice(alloc, &[failing])?;
    MemoryConsole::make(alloc, &Bytes::make(alloc), &failing)
}

fn make_cabinet(alloc: Global, failing: u64) -> Result<MemoryCabinet, Memory> {
    let failing = Numbers::from_slice(alloc, &[failing])?;
    MemoryCabinet::make(alloc, &failing)
}

fn make_notes(alloc: Global, failing: u64) -> Result<MemoryNotes, Memory> {
    let failing = Numbers::from_slice(alloc, &[failing])?;
    MemoryNotes::make(alloc, &failing)
}

fn devices(alloc: Global, failing: [u64; 3]) -> Result<Outside, Memory> {
    let [console, cabinet, notes] = failing;
    let console = make_console(alloc, console)?;
    let cabinet = make_cabinet(alloc, cabinet)?;
    let notes = make_notes(alloc, notes)?;
    Ok(Outside {
        console,
        cabinet,
        notes,
    })
}

impl Outside {
    /// Devices with a file `a.t`, which is the cabinet's first call.
    pub fn make(alloc: Global, source: &[u8], plan: Plan) -> Result<Outside, CabinetError> {
        let (failing, [events, bytes]) = plan;
        let mut outside = devices(alloc, failing)?;
        outside.console.reserve(events)?;
        outside.notes.reserve(bytes)?;
        outside.keep(alloc, "a.t", source)?;
        Ok(outside)
    }

    /// Keeps bytes as a file.
    pub fn keep(&mut self, alloc: Global, name: &str, bytes: &[u8]) -> Result<(), CabinetError> {
        let name = Bytes::from_slice(alloc, name.as_bytes())?;
        let bytes = Bytes::from_slice(alloc, bytes)?;
        self.cabinet.keep(alloc, &name, &bytes)
    }

    /// The report of a command. Between two of its words there is one blank.
    pub fn report(&mut self, alloc: Global, line: &str) -> Result<Report, Memory> {
        let mut words = Words::make(alloc);
        for word in line.as_bytes().split(|byte| *byte == b' ') {
            words.add(Bytes::from_slice(alloc, word)?)?;
        }
        let (console, cabinet) = (&mut self.console, &mut self.cabinet);
        Ok(turing(alloc, &words, console, cabinet, &mut self.notes))
    }

    /// The status of a command, and how many instructions were counted.
    pub fn outcome(&mut self, alloc: Global, line: &str) -> Result<(Status, u64), Memory> {
        let report = self.report(alloc, line)?;
        Ok((report.status, report.instructions))
    }

    /// How many bytes were written, where nothing was read and they are a first part of these.
    pub fn part_written(&self, output: &str) -> Option<usize> {
        let events = self.console.event_list();
        let bytes = output.as_bytes();
        let same = |(event, byte): (&Event, &u8)| *event == Event::Put(*byte);
        let is_part = events.len() <= bytes.len() && events.iter().zip(bytes).all(same);
        is_part.then_some(events.len())
    }

    /// Whether these bytes were written, and nothing was read.
    pub fn has_written(&self, output: &str) -> bool {
        self.part_written(output) == Some(output.len())
    }

    // Whether the notes are that of an end, or none where it is empty.
    fn has_noted(&self, alloc: Global, end: End) -> Result<bool, Memory> {
        let note = end.note(alloc)?;
        let mut lines = Words::make(alloc);
        if !note.is_empty() {
            lines.add(Bytes::from_slice(alloc, note.as_bytes())?)?;
        }
        Ok(self.notes.same(&lines))
    }

    /// Whether a file has these bytes, or, for None, is not there.
    pub fn has_file(
        &self,
        alloc: Global,
        name: &str,
        bytes: Option<&[u8]>,
    ) -> Result<bool, Memory> {
        let name = Bytes::from_slice(alloc, name.as_bytes())?;
        Ok(match (self.cabinet.file(&name), bytes) {
            (Some(found), Some(bytes)) => found.as_slice() == bytes,
            (found, bytes) => found.is_none() && bytes.is_none(),
        })
    }

    /// Whether a command answers so.
    pub fn answers(&mut self, alloc: Global, line: &str, answer: &Answer) -> Result<bool, Memory> {
        let (end, wanted, output) = *answer;
        let (status, count) = self.outcome(alloc, line)?;
        let noted = self.has_noted(alloc, end)?;
        let counted = wanted.is_none_or(|wanted| count == wanted);
        Ok(noted && counted && status == end.status() && self.has_written(output))
    }
}

/// A status, with what its note tells.
#[derive(Clone, Copy)]
pub enum End {
    Stopped(Kind, Line),
    Syntax(Line),
    Scope(ScopeError),
    NotBuilt(Line),
    BadImage(ImageError),
    Fault(FaultKind, u32),
    /// Another status, and its note, which is empty where there is none.
    Other(Status, Text),
}

pub const ENDED: End = End::Other(Status::Ended, "");

pub const CONSOLE_FAULT: End = End::Other(Status::ConsoleFault, "console failed");

pub const CABINET_FAULT: End = End::Other(Status::CabinetFault, "file failed");

pub const NOTE_FAULT: End = End::Other(Status::NoteFault, "");

pub const SPENT: End = End::Other(Status::Spent, "spent after 50000 instructions");

pub const NO_FILE: End = End::Other(Status::NoFile, "no such file");

pub const SIZE: End = End::Other(Status::Refused(Refusal::Size), "refused: Size");

pub const BAD_NUMBER: End = End::Other(
    Status::Refused(Refusal::Lexical(LexError::BadNumber(1))),
    "line 1: Lexical BadNumber",
);

pub const OPEN_TEXT: End = End::Other(
    Status::Refused(Refusal::Lexical(LexError::OpenText(1))),
    "line 1: Lexical OpenText",
);

pub const TOO_DEEP: End = End::Other(
    Status::Refused(Refusal::Lexical(LexError::TooDeep(1))),
    "line 1: Lexical TooDeep",
);

// The kind of a fault of names, and its line.
fn told(error: ScopeError) -> (Text, Line) {
    match error {
        ScopeError::Unknown(line) => ("Unknown", line),
        ScopeError::NotImported(line) => ("NotImported", line),
        ScopeError::NotExported(line) => ("NotExported", line),
        ScopeError::Twice(line) => ("Twice", line),
        ScopeError::BodyMissing(line) => ("BodyMissing", line),
        ScopeError::WrongEnd(line) => ("WrongEnd", line),
        ScopeError::Memory => ("out of memory", 0),
    }
}

impl End {
    pub fn status(self) -> Status {
        match self {
            End::Stopped(kind, line) => Status::Stopped { kind, line },
            End::Syntax(line) => Status::Refused(Refusal::Syntax(line)),
            End::Scope(error) => Status::Refused(Refusal::Scope(error)),
            End::NotBuilt(line) => Status::Refused(Refusal::Types(TypeError::NotBuilt(line))),
            End::BadImage(error) => Status::BadImage(error),
            End::Fault(kind, pc) => Status::MachineFault { kind, pc },
            End::Other(status, _) => status,
        }
    }

    pub fn note(self, alloc: Global) -> Result<String, AllocError> {
        match self {
            End::Stopped(kind, line) => format!(in alloc; "line {line}: {kind:?}"),
            End::Syntax(line) => format!(in alloc; "line {line}: Syntax Unexpected"),
            End::Scope(error) => {
                let (kind, line) = told(error);
                format!(in alloc; "line {line}: Scope {kind}")
            }
            End::NotBuilt(line) => format!(in alloc; "line {line}: Types NotBuilt"),
            End::BadImage(error) => format!(in alloc; "bad image: {error:?}"),
            End::Fault(kind, pc) => format!(in alloc; "machine: {kind:?} at 0x{pc:08x}"),
            End::Other(_, note) => format!(in alloc; "{note}"),
        }
    }
}
