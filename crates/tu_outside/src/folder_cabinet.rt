ghost use Rattle.std.specs.Prelude.{◌≡◌, ◌+◌, None, IfOk};
ghost use Rattle.tu_outside.specs.Causes.{with_error};
ghost use Rattle.tu_outside.specs.Files.{IsFetched, IsReadOf, LosesAtMost};

use crate::{Cabinet, CabinetError, Fetched};
use std::alloc::Global;
use std::fs::File;
use std::io::{ErrorKind, Read};
use std::marker::Model;
use std::str::from_utf8;
use tu_base::Bytes;

const SIZE: usize = 4096;

/// The files of the current folder. It tells nothing of what they hold. A contract sees its fault
/// count, which stands still at its type's end. A name that is not UTF-8 is a fault.
#[derive(Drop)]
pub struct FolderCabinet {
    rt: HostRuntime,
    fault_count: u64,
}

impl Model for FolderCabinet {
    ghost use Rattle.std.specs.Prelude.{ℕ};

    ghost Value = { ℕ };

    ghost view = { λ c. c.fault_count };
}

impl FolderCabinet {
    /// The current folder, with no faults yet. It takes no memory.
    pub fn make(rt: &HostRuntime) -> Self
        ensures { result ≡ 0 }
    {
        FolderCabinet {
            rt: *rt,
            fault_count: 0,
        }
    }
}

// Reads a source to its end, or to one byte past `most`, which shows that it is too long.
fn read_at_most<R: Read>(alloc: Global, source: &mut R, most: u64) -> Result<Fetched, CabinetError>
    ensures answer { IfOk result (IsReadOf (R.remaining source.old) most) }
    ensures taken { LosesAtMost (most + 1) (R.remaining source.old) (R.remaining source.new) }
{
    let mut bytes = Bytes::make(alloc);
    let mut piece = [0u8; SIZE];
    loop {
        let left = most - bytes.len() as u64;
        let wanted = left.saturating_add(1).min(SIZE as u64) as usize;
        let Ok(count) = source.read(&mut piece[..wanted]) else {
            return Err(CabinetError::Failed);
        };
        if count == 0 {
            return Ok(Fetched::Whole(bytes));
        }
        if count as u64 > left {
            return Ok(Fetched::TooLong);
        }
        bytes.extend(&piece[..count])?;
    }
}

fn read_file(
    rt: &HostRuntime,
    alloc: Global,
    name: &Bytes,
    most: u64,
) -> Result<Fetched, CabinetError>
    ensures { IfOk result (IsFetched None name.now most) }
{
    let Ok(path) = from_utf8(name.as_slice()) else {
        return Err(CabinetError::Failed);
    };
    match File::open(rt, path) {
        Ok(mut file) => read_at_most(alloc, &mut file, most),
        Err(error) if error.kind() == ErrorKind::NotFound => Ok(Fetched::Absent),
        Err(_) => Err(CabinetError::Failed),
    }
}

fn write_file(rt: &HostRuntime, name: &Bytes, contents: &Bytes) -> Result<(), CabinetError> {
    let Ok(path) = from_utf8(name.as_slice()) else {
        return Err(CabinetError::Failed);
    };
    match std::fs::write(rt, path, contents.as_slice()) {
        Ok(()) => Ok(()),
        Err(_) => Err(CabinetError::Failed),
    }
}

impl Cabinet for FolderCabinet {
    ghost files = { λ _. None };

    ghost faults = { λ c. c };

    fn fetch(&mut self, alloc: Global, name: &Bytes, most: u64) -> Result<Fetched, CabinetError>
        ensures answer { IfOk result (IsFetched None name.now most) }
        ensures faults { self.new ≡ with_error self.old result }
    {
        let answer = read_file(&self.rt, alloc, name, most);
        if answer.is_err() {
            self.fault_count = self.fault_count.saturating_add(1);
        }
        answer
    }

    fn keep(&mut self, _: Global, name: &Bytes, contents: &Bytes) -> Result<(), CabinetError>
        ensures { self.new ≡ with_error self.old result }
    {
        let answer = write_file(&self.rt, name, contents);
        if answer.is_err() {
            self.fault_count = self.fault_count.saturating_add(1);
        }
        answer
    }
}
