//! The program `turing`: the words of the command line, the real devices, and the status number.
#![tactic(auto)]

use std::alloc::Global;
use std::env;
use std::io::ErrorKind;
use std::process::ExitCode;
use tu_base::{Bytes, Memory, Words};
use tu_outside::{FolderCabinet, Notes, StdConsole, StdNotes};
use tu_run::{Status, turing};

// The words after the program's name: none where one of them is not UTF-8.
fn command_words(rt: &HostRuntime, alloc: Global) -> Result<Words, Memory> {
    let mut words = Words::make(alloc);
    match env::args(rt) {
        Ok(args) => {
            for text in args.skip(1) {
                words.add(Bytes::from_slice(alloc, text.as_bytes())?)?;
            }
        }
        Err(error) if error.kind() == ErrorKind::OutOfMemory => return Err(Memory),
        Err(_) => {}
    }
    Ok(words)
}

fn main(rt: HostRuntime) -> ExitCode {
    let alloc = rt.alloc();
    let mut notes = StdNotes::make(&rt);
    let status = match command_words(&rt, alloc) {
        Ok(words) => {
            let mut console = StdConsole::make(&rt);
            let mut cabinet = FolderCabinet::make(&rt);
            turing(alloc, &words, &mut console, &mut cabinet, &mut notes).status
        }
        Err(_) => {
            // The status tells of it also where the note can't be written.
            let _ = notes.line(b"out of memory");
            Status::OutOfMemory
        }
    };
    ExitCode::from(status.number())
}
