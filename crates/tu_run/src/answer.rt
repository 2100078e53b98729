// The answer of a command, before its note.
ghost use Rattle.std.specs.Prelude.{◌≡◌, ◌≢◌, ◌≤◌, ℕ, List, Option, length, true, Some, None, Ok, Err};
ghost use Rattle.tu_base.specs.declared.event.Event.{Event};
ghost use Rattle.tu_outside.specs.Causes.{Rose};
ghost use Rattle.tu_outside.specs.Files.{with_file};
ghost use Rattle.rv_image.specs.Picture.{spelling};
ghost use Rattle.tu_run.specs.Answer.{Answers, AnswersAny, AnswersRun, AnswersCheck, AnswersBuild, AnswersExec, is_of_run, is_of_files};
ghost use Rattle.tu_run.specs.Ran.{RunsImage};
ghost use Rattle.tu_run.specs.Made.{Compiles, Fetches, Judges, MakesImage, ReadsImage, ReadsSource, status_of, status_of_check};

use crate::command::{Command, command_of};
use crate::{Report, Status};
use rv_host::{HostEnd, run};
use rv_image::{Image, ImageError, reads_again};
use rv_machine::Machine;
use std::alloc::Global;
use tu_agree::meaning_is_run;
use tu_base::{Bytes, MOST_SOURCE_BYTES, Words};
use tu_check::{CheckError, Refusal, check, one_answer};
use tu_compile::compile;
use tu_outside::{Cabinet, CabinetError, Console, Fetched};
use tu_tree_meaning::program_is_final;

// In bytes.
const LARGEST_SOURCE: u64 = MOST_SOURCE_BYTES as u64;

const LARGEST_IMAGE: u64 = 67_108_884;

fn plain(status: Status) -> Report
    ensures { result ≡ record { status = status; image = None; instructions = 0 } }
{
    Report {
        status,
        image: None,
        instructions: 0,
    }
}

// The status that tells of an error of the cabinet.
fn file_status(error: CabinetError) -> Status
    ensures failed { error ≡ CabinetError.Failed → result ≡ Status.CabinetFault }
    ensures memory { error ≡ CabinetError.Memory → result ≡ Status.OutOfMemory }
{
    match error {
        CabinetError::Failed => Status::CabinetFault,
        CabinetError::Memory => Status::OutOfMemory,
    }
}

// The status that tells why bytes are no image.
fn image_status(error: ImageError) -> Status
    ensures memory { error ≡ ImageError.Memory → result ≡ Status.OutOfMemory }
    ensures bad { error ≢ ImageError.Memory → result ≡ Status.BadImage error }
{
    match error {
        ImageError::Memory => Status::OutOfMemory,
        error => Status::BadImage(error),
    }
}

// The status that tells why a source was not checked.
fn check_status(error: CheckError) -> Status
    ensures { result ≡ status_of_check error }
{
    match error {
        CheckError::Refused(refusal) => Status::Refused(refusal),
        CheckError::Memory => Status::OutOfMemory,
    }
}

// The source in a file, of at most 1,048,576 bytes.
fn source_in<K: Cabinet>(alloc: Global, file: &Bytes, cabinet: &mut K) -> Result<Bytes, Status>
    ensures fetches { Fetches (K.files cabinet.old) file.now result }
    ensures files { K.files cabinet.new ≡ K.files cabinet.old }
    ensures fault { result ≡ Err Status.CabinetFault → Rose (K.faults cabinet.old) (K.faults cabinet.new) }
    ensures later { K.faults cabinet.old ≤ K.faults cabinet.new }
{
    match cabinet.fetch(alloc, file, LARGEST_SOURCE) {
        Ok(Fetched::Whole(source)) => Ok(source),
        Ok(Fetched::Absent) => Err(Status::NoFile),
        Ok(Fetched::TooLong) => Err(Status::Refused(Refusal::Size)),
        Err(error) => Err(file_status(error)),
    }
}

// Whether a source is accepted, or the status that tells why not.
fn judged(alloc: Global, source: &Bytes) -> Result<(), Status>
    ensures { Judges source.now result }
{
    match check(alloc, source) {
        Ok(_checked) => Ok(()),
        Err(error) => Err(check_status(error)),
    }
}

// The image of the program that a source is.
fn compiled(alloc: Global, source: &Bytes) -> Result<Image, Status>
    ensures { Compiles source.now result }
{
    one_answer();
    let checked = match check(alloc, source) {
        Ok(checked) => checked,
        Err(error) => return Err(check_status(error)),
    };
    match compile(alloc, &checked) {
        Ok(image) => Ok(image),
        Err(_) => Err(Status::OutOfMemory),
    }
}

// Whether the source in a file is accepted.
fn check_file<K: Cabinet>(alloc: Global, file: &Bytes, cabinet: &mut K) -> Result<(), Status>
    ensures reads { ReadsSource (K.files cabinet.old) file.now result }
    ensures files { K.files cabinet.new ≡ K.files cabinet.old }
    ensures fault { result ≡ Err Status.CabinetFault → Rose (K.faults cabinet.old) (K.faults cabinet.new) }
    ensures later { K.faults cabinet.old ≤ K.faults cabinet.new }
{
    one_answer();
    match source_in(alloc, file, cabinet) {
        Ok(source) => judged(alloc, &source),
        Err(status) => Err(status),
    }
}

// The image of the program in a file.
fn made_image<K: Cabinet>(alloc: Global, file: &Bytes, cabinet: &mut K) -> Result<Image, Status>
    ensures makes { MakesImage (K.files cabinet.old) file.now result }
    ensures files { K.files cabinet.new ≡ K.files cabinet.old }
    ensures fault { result ≡ Err Status.CabinetFault → Rose (K.faults cabinet.old) (K.faults cabinet.new) }
    ensures later { K.faults cabinet.old ≤ K.faults cabinet.new }
{
    one_answer();
    match source_in(alloc, file, cabinet) {
        Ok(source) => compiled(alloc, &source),
        Err(status) => Err(status),
    }
}

// The image that a file holds.
fn read_image<K: Cabinet>(alloc: Global, file: &Bytes, cabinet: &mut K) -> Result<Image, Status>
    ensures reads { ReadsImage (K.files cabinet.old) file.now result }
    ensures files { K.files cabinet.new ≡ K.files cabinet.old }
    ensures fault { result ≡ Err Status.CabinetFault → Rose (K.faults cabinet.old) (K.faults cabinet.new) }
    ensures later { K.faults cabinet.old ≤ K.faults cabinet.new }
{
    reads_again();
    let bytes = match cabinet.fetch(alloc, file, LARGEST_IMAGE) {
        Ok(Fetched::Whole(bytes)) => bytes,
        Ok(Fetched::Absent) => return Err(Status::NoFile),
        Ok(Fetched::TooLong) => return Err(Status::BadImage(ImageError::Size)),
        Err(error) => return Err(file_status(error)),
    };
    match Image::read(alloc, &bytes) {
        Ok(image) => Ok(image),
        Err(error) => Err(image_status(error)),
    }
}

fn run_status(end: HostEnd) -> Status
    ensures { result ≡ status_of end }
{
    match end {
        HostEnd::Ended => Status::Ended,
        HostEnd::Stopped { kind, line } => Status::Stopped { kind, line },
        HostEnd::Spent => Status::Spent,
        HostEnd::Fault { kind, pc } => Status::MachineFault { kind, pc },
        HostEnd::ConsoleFault => Status::ConsoleFault,
        HostEnd::CabinetFault => Status::CabinetFault,
        HostEnd::Memory => Status::OutOfMemory,
    }
}

// Loads and runs an image.
fn run_image<C: Console, K: Cabinet>(
    alloc: Global,
    image: Image,
    console: &mut C,
    cabinet: &mut K,
    budget: u64,
) -> Report
    ensures image { result.image ≡ Some image }
    ensures status { is_of_run result.status ≡ true }
    ensures runs { RunsImage image budget
        (record { left = C.left console.old; events = C.events console.old; files = K.files cabinet.old; console_faults = C.faults console.old; cabinet_faults = K.faults cabinet.old })
        (record { left = C.left console.new; events = C.events console.new; files = K.files cabinet.new; console_faults = C.faults console.new; cabinet_faults = K.faults cabinet.new })
        result.status result.instructions }
    ensures console_fault { result.status ≡ Status.ConsoleFault → Rose (C.faults console.old) (C.faults console.new) }
    ensures cabinet_fault { result.status ≡ Status.CabinetFault → Rose (K.faults cabinet.old) (K.faults cabinet.new) }
    ensures later { C.faults console.old ≤ C.faults console.new }
    ensures cabinet_later { K.faults cabinet.old ≤ K.faults cabinet.new }
{
    let Ok(mut machine) = Machine::load(alloc, &image) else {
        return Report {
            status: Status::OutOfMemory,
            image: Some(image),
            instructions: 0,
        };
    };
    let end = run(alloc, &mut machine, console, cabinet, budget);
    Report {
        status: run_status(end),
        image: Some(image),
        instructions: machine.count(),
    }
}

// `run FILE [budget=N]`
fn run_source<C: Console, K: Cabinet>(
    alloc: Global,
    file: &Bytes,
    console: &mut C,
    cabinet: &mut K,
    budget: u64,
) -> Report
    ensures run { AnswersRun file.now budget
        (record { left = C.left console.old; events = C.events console.old; files = K.files cabinet.old; console_faults = C.faults console.old; cabinet_faults = K.faults cabinet.old })
        (record { left = C.left console.new; events = C.events console.new; files = K.files cabinet.new; console_faults = C.faults console.new; cabinet_faults = K.faults cabinet.new })
        result }
    ensures any { AnswersAny
        (record { left = C.left console.old; events = C.events console.old; files = K.files cabinet.old; console_faults = C.faults console.old; cabinet_faults = K.faults cabinet.old })
        (record { left = C.left console.new; events = C.events console.new; files = K.files cabinet.new; console_faults = C.faults console.new; cabinet_faults = K.faults cabinet.new })
        result }
{
    meaning_is_run();
    program_is_final();
    match made_image(alloc, file, cabinet) {
        Ok(image) => run_image(alloc, image, console, cabinet, budget),
        Err(status) => plain(status),
    }
}

// `check FILE`
fn check_source<K: Cabinet>(alloc: Global, file: &Bytes, cabinet: &mut K) -> Report
    ensures check { (left : Option (List ℕ)) (events : Option (List Event)) (faults : ℕ) → AnswersCheck file.now
        (record { left = left; events = events; files = K.files cabinet.old; console_faults = faults; cabinet_faults = K.faults cabinet.old })
        (record { left = left; events = events; files = K.files cabinet.new; console_faults = faults; cabinet_faults = K.faults cabinet.new })
        result }
    ensures any { (left : Option (List ℕ)) (events : Option (List Event)) (faults : ℕ) → AnswersAny
        (record { left = left; events = events; files = K.files cabinet.old; console_faults = faults; cabinet_faults = K.faults cabinet.old })
        (record { left = left; events = events; files = K.files cabinet.new; console_faults = faults; cabinet_faults = K.faults cabinet.new })
        result }
{
    match check_file(alloc, file, cabinet) {
        Ok(()) => plain(Status::Ended),
        Err(status) => plain(status),
    }
}

// Keeps an image as a file.
fn keep_image<K: Cabinet>(alloc: Global, image: Image, name: &Bytes, cabinet: &mut K) -> Report
    ensures image { result.image ≡ Some image }
    ensures none { result.instructions ≡ 0 }
    ensures kind { result.status ≢ Status.Ended → is_of_files result.status ≡ true }
    ensures kept { result.status ≡ Status.Ended → K.files cabinet.new ≡ with_file (K.files cabinet.old) name.now (spelling image) }
    ensures same { result.status ≢ Status.Ended → K.files cabinet.new ≡ K.files cabinet.old }
    ensures fault { result.status ≡ Status.CabinetFault → Rose (K.faults cabinet.old) (K.faults cabinet.new) }
    ensures later { K.faults cabinet.old ≤ K.faults cabinet.new }
{
    let status = match image.bytes(alloc) {
        Ok(bytes) => match cabinet.keep(alloc, name, &bytes) {
            Ok(()) => Status::Ended,
            Err(error) => file_status(error),
        },
        Err(_) => Status::OutOfMemory,
    };
    Report {
        status,
        image: Some(image),
        instructions: 0,
    }
}

// `build FILE IMAGE`
fn build<K: Cabinet>(alloc: Global, file: &Bytes, image: &Bytes, cabinet: &mut K) -> Report
    ensures build { (left : Option (List ℕ)) (events : Option (List Event)) (faults : ℕ) → AnswersBuild file.now image.now
        (record { left = left; events = events; files = K.files cabinet.old; console_faults = faults; cabinet_faults = K.faults cabinet.old })
        (record { left = left; events = events; files = K.files cabinet.new; console_faults = faults; cabinet_faults = K.faults cabinet.new })
        result }
    ensures any { (left : Option (List ℕ)) (events : Option (List Event)) (faults : ℕ) → AnswersAny
        (record { left = left; events = events; files = K.files cabinet.old; console_faults = faults; cabinet_faults = K.faults cabinet.old })
        (record { left = left; events = events; files = K.files cabinet.new; console_faults = faults; cabinet_faults = K.faults cabinet.new })
        result }
{
    match made_image(alloc, file, cabinet) {
        Ok(made) => keep_image(alloc, made, image, cabinet),
        Err(status) => plain(status),
    }
}

// `exec IMAGE [budget=N]`
fn exec<C: Console, K: Cabinet>(
    alloc: Global,
    image: &Bytes,
    console: &mut C,
    cabinet: &mut K,
    budget: u64,
) -> Report
    ensures exec { AnswersExec image.now budget
        (record { left = C.left console.old; events = C.events console.old; files = K.files cabinet.old; console_faults = C.faults console.old; cabinet_faults = K.faults cabinet.old })
        (record { left = C.left console.new; events = C.events console.new; files = K.files cabinet.new; console_faults = C.faults console.new; cabinet_faults = K.faults cabinet.new })
        result }
    ensures any { AnswersAny
        (record { left = C.left console.old; events = C.events console.old; files = K.files cabinet.old; console_faults = C.faults console.old; cabinet_faults = K.faults cabinet.old })
        (record { left = C.left console.new; events = C.events console.new; files = K.files cabinet.new; console_faults = C.faults console.new; cabinet_faults = K.faults cabinet.new })
        result }
{
    match read_image(alloc, image, cabinet) {
        Ok(read) => run_image(alloc, read, console, cabinet, budget),
        Err(status) => plain(status),
    }
}

/// The answer of a command, before its note.
pub fn answer<C: Console, K: Cabinet>(
    alloc: Global,
    words: &Words,
    console: &mut C,
    cabinet: &mut K,
) -> Report
    ensures reached { result.status ≢ Status.NoteFault }
    ensures answers { Answers words.now
        (record { left = C.left console.old; events = C.events console.old; files = K.files cabinet.old; console_faults = C.faults console.old; cabinet_faults = K.faults cabinet.old })
        (record { left = C.left console.new; events = C.events console.new; files = K.files cabinet.new; console_faults = C.faults console.new; cabinet_faults = K.faults cabinet.new })
        result }
{
    match command_of(words) {
        Some(Command::Run { file, budget }) => run_source(alloc, file, console, cabinet, budget),
        Some(Command::Check { file }) => check_source(alloc, file, cabinet),
        Some(Command::Build { file, image }) => build(alloc, file, image, cabinet),
        Some(Command::Exec { image, budget }) => exec(alloc, image, console, cabinet, budget),
        None => plain(Status::Usage),
    }
}
