ghost use Rattle.std.specs.Prelude.{◌≡◌, ℕ, List, Option, OnOk, OnErr, IfOk};

use std::alloc::Global;
use tu_base::{Bytes, Memory};

/// What a fetch of a file of at most some number of bytes found.
#[derive(Debug, Drop)]
pub enum Fetched {
    /// The file's contents.
    Whole(Bytes),
    /// There is no such file.
    Absent,
    /// The file has more bytes.
    TooLong,
}

/// Why a cabinet gave no answer.
#[derive(Clone, Copy, Debug, PartialEq, Eq)]
pub enum CabinetError {
    /// The cabinet failed. Its fault count has risen.
    Failed,
    /// Want of memory.
    Memory,
}

impl From<Memory> for CabinetError {
    ghost use Rattle.tu_outside.specs.declared.cabinet.CabinetError.TheVariants.{Memory};

    ghost from_gives = { λ _ e. e ≡ Memory };

    fn from(_: Memory) -> Self {
        CabinetError::Memory
    }
}

/// Files by their names.
pub trait Cabinet {
    ghost use Rattle.std.specs.Prelude.{◌≡◌, ℕ, Option, OnOk, OnErr, IfOk};
    ghost use Rattle.tu_base.specs.Files.{Files};
    ghost use Rattle.tu_outside.specs.Causes.{HasCauseAt};
    ghost use Rattle.tu_outside.specs.Files.{IsFetched, with_file};

    /// The files, where they are told.
    ghost files: { Self → Option Files };

    /// How often the cabinet has failed.
    ghost faults: { Self → ℕ };

    /// Reads a whole file of at most `most` bytes. The files stay as they are.
    fn fetch(&mut self, alloc: Global, name: &Bytes, most: u64) -> Result<Fetched, CabinetError>
        ensures answer { IfOk result (λ answer. IsFetched (files self.old) name.now most answer) }
        ensures same { files self.new ≡ files self.old }
        ensures cause { HasCauseAt CabinetError.Failed (faults self.old) (faults self.new) result };

    /// Sets the contents of one file, which need not have been there. At an error the files that
    /// are told stay as they are.
    fn keep(&mut self, alloc: Global, name: &Bytes, contents: &Bytes) -> Result<(), CabinetError>
        ensures kept { OnOk result (files self.new ≡ with_file (files self.old) name.now contents.now) }
        ensures same { OnErr result (files self.new ≡ files self.old) }
        ensures cause { HasCauseAt CabinetError.Failed (faults self.old) (faults self.new) result };
}
