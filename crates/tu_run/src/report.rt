use rv_image::{Image, ImageError};
use rv_isa::FaultKind;
use tu_base::{Kind, Line};
use tu_check::Refusal;

/// How a command ended.
#[derive(Clone, Copy, Debug, PartialEq, Eq)]
pub enum Status {
    /// The program ended, or the source is accepted, or its image is kept.
    Ended,
    /// The program was stopped by an exception at a line.
    Stopped { kind: Kind, line: Line },
    /// The source is not accepted.
    Refused(Refusal),
    /// The words are no command.
    Usage,
    /// There is no such file.
    NoFile,
    /// The bytes are no image.
    BadImage(ImageError),
    /// The budget of instructions ran out.
    Spent,
    /// The console failed in this call.
    ConsoleFault,
    /// A file failed in this call.
    CabinetFault,
    /// The note of another status could not be written.
    NoteFault,
    /// Want of memory.
    OutOfMemory,
    /// The machine faulted at a place.
    MachineFault { kind: FaultKind, pc: u32 },
}

impl Status {
    ghost use Rattle.std.specs.Prelude.{◌≡◌};
    ghost use Rattle.tu_run.specs.Note.{status_number};

    /// The status that the process ends with, from 0 to 11.
    pub fn number(self) -> u8
        ensures { result ≡ status_number self }
    {
        match self {
            Status::Ended => 0,
            Status::Stopped { .. } => 1,
            Status::Refused(_) => 2,
            Status::Usage => 3,
            Status::NoFile => 4,
            Status::BadImage(_) => 5,
            Status::Spent => 6,
            Status::ConsoleFault => 7,
            Status::CabinetFault => 8,
            Status::NoteFault => 9,
            Status::OutOfMemory => 10,
            Status::MachineFault { .. } => 11,
        }
    }
}

/// What a command came to.
#[derive(Debug, Drop)]
pub struct Report {
    pub status: Status,
    /// The image that was made or read, if it came so far.
    pub image: Option<Image>,
    /// How many instructions were counted: 0 where nothing ran.
    pub instructions: u64,
}
