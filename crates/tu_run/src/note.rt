// The one line that tells of a status. It takes no memory.
ghost use Rattle.std.specs.Prelude.{◌≡◌, ◌≢◌, ◌≤◌, ◌<◌, ◌+◌, ◌++◌, ◌∷◌, [], length, decimal, codes, true, false};
ghost use Rattle.tu_base.specs.Kind.{kind_name};
ghost use Rattle.tu_run.specs.Reason.{at_line};
ghost use Rattle.tu_run.specs.Note.{note_lines, error_name, fault_name, hexadecimal, hexadecimal_digit, IsShown};

use crate::Status;
use crate::reason::put_refusal;
use arrayvec::ArrayString;
use itoa::Buffer;
use rv_image::ImageError;
use rv_isa::FaultKind;
use tu_base::Line;
use tu_outside::Notes;

pub const ROOM: usize = 96;

const USAGE: &str =
    "usage: turing run FILE [budget=N] | check FILE | build FILE IMAGE | exec IMAGE [budget=N]";

pub fn put(text: &mut ArrayString<ROOM>, more: &str)
    requires { length text.old.bytes + length more.now ≤ 96 }
    ensures { text.new.bytes ≡ text.old.bytes ++ more.now }
{
    text.try_push_str(more).unwrap();
}

// `line L: TEXT`
pub fn put_line(text: &mut ArrayString<ROOM>, line: Line, more: &str)
    requires empty { text.old.bytes ≡ [] }
    requires short { length more.now ≤ 40 }
    ensures { text.new.bytes ≡ at_line line more.now }
{
    let mut buffer = Buffer::new();
    put(text, "line ");
    put(text, buffer.format(line));
    put(text, ": ");
    put(text, more);
}

fn error_name(error: ImageError) -> &'static str
    ensures name { result.now ≡ error_name error }
    ensures short { length result.now ≤ 10 }
{
    match error {
        ImageError::Size => "Size",
        ImageError::Short => "Short",
        ImageError::Magic => "Magic",
        ImageError::Version => "Version",
        ImageError::Length => "Length",
        ImageError::Entry => "Entry",
        ImageError::Globals => "Globals",
        ImageError::Memory => "Memory",
    }
}

fn fault_name(kind: FaultKind) -> &'static str
    ensures name { result.now ≡ fault_name kind }
    ensures short { length result.now ≤ 10 }
{
    match kind {
        FaultKind::Illegal => "Illegal",
        FaultKind::Fetch => "Fetch",
        FaultKind::Address => "Address",
        FaultKind::Misaligned => "Misaligned",
        FaultKind::Break => "Break",
        FaultKind::Service => "Service",
    }
}

fn hexadecimal_digit(digit: u32) -> &'static str
    requires { digit < 16 }
    ensures { result.now ≡ hexadecimal_digit digit ∷ [] }
{
    match digit {
        0 => "0",
        1 => "1",
        2 => "2",
        3 => "3",
        4 => "4",
        5 => "5",
        6 => "6",
        7 => "7",
        8 => "8",
        9 => "9",
        10 => "a",
        11 => "b",
        12 => "c",
        13 => "d",
        14 => "e",
        15 => "f",
        _ => unreachable!(),
    }
}

fn put_hexadecimal(text: &mut ArrayString<ROOM>, number: u32)
    requires { length text.old.bytes ≤ 40 }
    ensures { text.new.bytes ≡ text.old.bytes ++ hexadecimal number }
{
    put(text, hexadecimal_digit(number / 268435456 % 16));
    put(text, hexadecimal_digit(number / 16777216 % 16));
    put(text, hexadecimal_digit(number / 1048576 % 16));
    put(text, hexadecimal_digit(number / 65536 % 16));
    put(text, hexadecimal_digit(number / 4096 % 16));
    put(text, hexadecimal_digit(number / 256 % 16));
    put(text, hexadecimal_digit(number / 16 % 16));
    put(text, hexadecimal_digit(number % 16));
}

// `machine: KIND at 0xPC`
fn put_fault(text: &mut ArrayString<ROOM>, kind: FaultKind, pc: u32)
    requires { text.old.bytes ≡ [] }
    ensures { text.new.bytes ≡ codes "machine: " ++ (fault_name kind ++ (codes " at 0x" ++ hexadecimal pc)) }
{
    put(text, "machine: ");
    put(text, fault_name(kind));
    put(text, " at 0x");
    put_hexadecimal(text, pc);
}

// `spent after N instructions`
fn put_spent(text: &mut ArrayString<ROOM>, count: u64)
    requires { text.old.bytes ≡ [] }
    ensures { text.new.bytes ≡ codes "spent after " ++ (decimal count ++ codes " instructions") }
{
    let mut buffer = Buffer::new();
    put(text, "spent after ");
    put(text, buffer.format(count));
    put(text, " instructions");
}

fn put_bad_image(text: &mut ArrayString<ROOM>, error: ImageError)
    requires { text.old.bytes ≡ [] }
    ensures { text.new.bytes ≡ codes "bad image: " ++ error_name error }
{
    put(text, "bad image: ");
    put(text, error_name(error));
}

// Puts the note of a status into an empty text, where it has one.
fn put_note(text: &mut ArrayString<ROOM>, count: u64, status: Status) -> bool
    requires { text.old.bytes ≡ [] }
    ensures some { result ≡ true → note_lines count status ≡ text.new.bytes ∷ [] }
    ensures none { result ≡ false → note_lines count status ≡ [] }
{
    match status {
        Status::Ended | Status::NoteFault => return false,
        Status::Stopped { kind, line } => put_line(text, line, kind.name()),
        Status::Refused(refusal) => put_refusal(text, refusal),
        Status::Usage => put(text, USAGE),
        Status::NoFile => put(text, "no such file"),
        Status::BadImage(error) => put_bad_image(text, error),
        Status::Spent => put_spent(text, count),
        Status::ConsoleFault => put(text, "console failed"),
        Status::CabinetFault => put(text, "file failed"),
        Status::OutOfMemory => put(text, "out of memory"),
        Status::MachineFault { kind, pc } => put_fault(text, kind, pc),
    }
    true
}

/// Writes the note of a status, where so many instructions were counted, and says which status is
/// shown.
pub fn noted<S: Notes>(count: u64, status: Status, notes: &mut S) -> Status
    requires { status ≢ Status.NoteFault }
    ensures shown { IsShown count status result (S.lines notes.old) (S.lines notes.new) (S.faults notes.old) (S.faults notes.new) }
    ensures later { S.faults notes.old ≤ S.faults notes.new }
{
    let mut text = ArrayString::new();
    if !put_note(&mut text, count, status) {
        return status;
    }
    match notes.line(text.as_str().as_bytes()) {
        Ok(()) => status,
        Err(_) => Status::NoteFault,
    }
}
