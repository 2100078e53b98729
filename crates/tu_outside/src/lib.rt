//! The outside of a program: its console, its files and its notes.
//!
//! Each of the three is a trait with two devices: a real one, which tells nothing of what it
//! holds, and one in memory, which tells all of it and fails where it is told to.
#![tactic(auto)]

mod cabinet;
mod console;
mod folder_cabinet;
mod input_buffer;
mod memory_cabinet;
mod memory_console;
mod memory_notes;
mod notes;
mod plan;
mod std_console;
mod std_notes;

pub use cabinet::{Cabinet, CabinetError, Fetched};
pub use console::{Console, ConsoleFault};
pub use folder_cabinet::FolderCabinet;
pub use memory_cabinet::MemoryCabinet;
pub use memory_console::MemoryConsole;
pub use memory_notes::MemoryNotes;
pub use notes::{NoteFault, Notes};
pub use std_console::StdConsole;
pub use std_notes::StdNotes;

#[cfg(test)]
mod tests {
    use super::*;
    use std::alloc::Global;
    use std::test::Fail;
    use tu_base::{Bytes, Event, Memory, Numbers, Words};

    fn fails_where_it_is_told_to(alloc: Global) -> Result<bool, Memory> {
        let input = Bytes::from_slice(alloc, b"x")?;
        let fail = Numbers::from_slice(alloc, &[2])?;
        let mut console = MemoryConsole::make(alloc, &input, &fail)?;
        console.reserve(3)?;
        let puts = [console.put(b"a"), console.put(b"b")];
        let gets = [console.get(), console.get(), console.get()];
        let events = [Event::Put(b'a'), Event::Got(b'x'), Event::AtEnd];
        Ok(
            puts == [Ok(()), Err(ConsoleFault)]
                && gets == [Ok(Some(b'x')), Ok(None), Err(ConsoleFault)]
                && console.event_list() == events.as_slice()
                && console.fault_count() == 2,
        )
    }

    #[test]
    fn a_memory_console_fails_where_it_is_told_to(rt: HostRuntime) -> Result<(), Fail> {
        assert!(rt; fails_where_it_is_told_to(rt.alloc())?);
        Ok(())
    }

    // Whether a file with these bytes is fetched, but not where it may only be shorter.
    fn is_fetched<K: Cabinet>(
        alloc: Global,
        cabinet: &mut K,
        name: &Bytes,
        contents: &[u8],
    ) -> Result<bool, CabinetError> {
        let Fetched::TooLong = cabinet.fetch(alloc, name, 4)? else {
            return Ok(false);
        };
        for most in [5, u64::MAX] {
            let Fetched::Whole(found) = cabinet.fetch(alloc, name, most)? else {
                return Ok(false);
            };
            if found.as_slice() != contents {
                return Ok(false);
            }
        }
        Ok(true)
    }

    fn keeps_a_file(alloc: Global) -> Result<bool, CabinetError> {
        let name = Bytes::from_slice(alloc, b"name")?;
        let contents = Bytes::from_slice(alloc, b"hello")?;
        let mut cabinet = MemoryCabinet::make(alloc, &Numbers::make(alloc))?;
        cabinet.keep(alloc, &name, &contents)?;
        let fetched = is_fetched(alloc, &mut cabinet, &name, b"hello")?;
        let found = cabinet.file(&name);
        let found = found.is_some_and(|found| found.as_slice() == b"hello".as_slice());
        Ok(fetched && found && cabinet.fault_count() == 0)
    }

    fn keeps_a_line(alloc: Global) -> Result<bool, Memory> {
        let mut notes = MemoryNotes::make(alloc, &Numbers::make(alloc))?;
        notes.reserve(6)?;
        let lines = [notes.line(b"hello"), notes.line(b"")];
        let mut expected = Words::make(alloc);
        expected.add(Bytes::from_slice(alloc, b"hello")?)?;
        Ok(lines == [Ok(()), Err(NoteFault)] && notes.same(&expected) && notes.fault_count() == 1)
    }

    #[test]
    fn memory_keeps_files_and_lines(rt: HostRuntime) -> Result<(), Fail> {
        assert!(rt; keeps_a_file(rt.alloc())?);
        assert!(rt; keeps_a_line(rt.alloc())?);
        Ok(())
    }

    #[test]
    fn the_real_console_takes_bytes(rt: HostRuntime) {
        let mut console = StdConsole::make(&rt);
        assert_eq!(rt; console.put(b"a line\n"), Ok(()));
    }

    fn keeps_a_file_in_the_folder(
        alloc: Global,
        cabinet: &mut FolderCabinet,
    ) -> Result<bool, CabinetError> {
        let name = Bytes::from_slice(alloc, b"tu_outside.a_folder_keeps_a_file.tmp")?;
        let contents = Bytes::from_slice(alloc, b"hello")?;
        let absent = Bytes::from_slice(alloc, b"tu_outside.no_such_file.tmp")?;
        let Fetched::Absent = cabinet.fetch(alloc, &absent, 9)? else {
            return Ok(false);
        };
        cabinet.keep(alloc, &name, &contents)?;
        is_fetched(alloc, cabinet, &name, b"hello")
    }

    #[test]
    fn a_folder_keeps_a_file(rt: HostRuntime) -> Result<(), Fail> {
        let mut cabinet = FolderCabinet::make(&rt);
        assert!(rt; keeps_a_file_in_the_folder(rt.alloc(), &mut cabinet)?);
        Ok(())
    }

    #[test]
    fn real_notes_take_a_line(rt: HostRuntime) {
        let mut notes = StdNotes::make(&rt);
        assert_eq!(rt; notes.line(b"a note"), Ok(()));
    }
}
