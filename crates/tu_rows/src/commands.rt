// The words of commands, budgets, images that are not kept, and devices that fail.

use crate::outside::End::Stopped;
use crate::outside::{
    AMPLE, BAD_NUMBER, CABINET_FAULT, CONSOLE_FAULT, ENDED, End, NO_FILE, NOTE_FAULT, Outside,
    Plan, ROOM, SPENT, Truth,
};
use crate::programs::SUM;
use crate::rows::{Text, rows_hold};
use std::alloc::Global;
use tu_base::Kind::Overflow;
use tu_run::Status;

const USAGE: End = End::Other(
    Status::Usage,
    "usage: turing run FILE [budget=N] | check FILE | build FILE IMAGE | exec IMAGE [budget=N]",
);

// Words with blanks between them, so that a blank at the end stands before an empty word.
const NO_COMMANDS: &[Text] = &[
    "",
    "run",
    "run ",
    "walk a.t",
    "run a.t a.t",
    "run a.t budget=",
    "run a.t budget=-1",
    "run a.t budget=1x",
    "run a.t budgets=1",
    "run a.t budget=1 budget=2",
    "run a.t budget=9223372036854775808",
    "run a.t budget=00000000000000000001",
    "check",
    "check ",
    "check a.t a.t",
    "build a.t",
    "build a.t ",
    "build a.t a.img budget=1",
    "exec",
    "exec ",
    "exec a.t a.t",
];

const SEVEN: &str = "put 1 + 2 * 3\n";

const NO_END: &str = "loop\nend loop";

const LONGEST_BUDGET: &str = "run a.t budget=0000000000000050000";

const LARGEST_BUDGET: &str = "run a.t budget=9223372036854775807";

const SPENT_AT_0: End = End::Other(Status::Spent, "spent after 0 instructions");

const SPENT_AT_1: End = End::Other(Status::Spent, "spent after 1 instructions");

// A source, a command, how many instructions are counted, where that is told, what is written, and the end.
type Row = (Text, Text, Option<u64>, Text, End);

const COMMANDS: &[Row] = &[
    (SEVEN, "run a.t budget=0", Some(0), "", SPENT_AT_0),
    (SEVEN, "run a.t budget=1", Some(1), "", SPENT_AT_1),
    (SEVEN, LONGEST_BUDGET, None, "7\n", ENDED),
    (SEVEN, LARGEST_BUDGET, None, "7\n", ENDED),
    (SEVEN, "check a.t", Some(0), "", ENDED),
    (SEVEN, "run none.t", Some(0), "", NO_FILE),
    (SEVEN, "check none.t", Some(0), "", NO_FILE),
    (SEVEN, "build none.t a.img", Some(0), "", NO_FILE),
    (SEVEN, "exec none.img", Some(0), "", NO_FILE),
    (SUM, "run a.t budget=209000", None, "55\n", ENDED),
    (SUM, "run a.t budget=0", Some(0), "", SPENT_AT_0),
    (NO_END, "run a.t budget=50000", Some(50_000), "", SPENT),
];

fn does_so(alloc: Global, row: &Row) -> Truth {
    let (source, line, count, output, end) = *row;
    let mut outside = Outside::make(alloc, source.as_bytes(), AMPLE)?;
    Ok(outside.answers(alloc, line, &(end, count, output))?)
}

fn is_no_command(alloc: Global, line: &Text) -> Truth {
    does_so(alloc, &("put 1", *line, Some(0), "", USAGE))
}

#[test]
fn words_are_a_command_or_usage(rt: HostRuntime) {
    rows_hold(&rt, rt.alloc(), COMMANDS, does_so);
    rows_hold(&rt, rt.alloc(), NO_COMMANDS, is_no_command);
}

// A source, the call of the cabinet that fails, the end, and whether an image was made that was not kept.
type Kept = (Text, u64, End, bool);

const NOT_KEPT: &[Kept] = &[
    ("put 1put 2", 0, BAD_NUMBER, false),
    ("put 1", 3, CABINET_FAULT, true),
];

fn is_not_kept(alloc: Global, row: &Kept) -> Truth {
    let (source, cabinet, end, made) = *row;
    let plan = ([0, cabinet, 0], ROOM);
    let mut outside = Outside::make(alloc, source.as_bytes(), plan)?;
    let report = outside.report(alloc, "build a.t a.img")?;
    let same = report.status == end.status() && report.image.is_some() == made;
    Ok(outside.has_file(alloc, "a.img", None)? && same)
}

#[test]
fn images_are_not_kept(rt: HostRuntime) {
    rows_hold(&rt, rt.alloc(), NOT_KEPT, is_not_kept);
}

// A program with an overflow behind a `put`.
const FAILING: &[u8] = b"put 7 put 2147483647 + 1";

const OVERFLOW: End = Stopped(Overflow, 1);

// What fails and how short the room is, what is written, the end, and how many faults there are.
type Failure = (Plan, Text, End, u64);

const FAILURES: &[Failure] = &[
    (([1, 0, 0], ROOM), "", CONSOLE_FAULT, 1),
    (([2, 0, 0], ROOM), "7", CONSOLE_FAULT, 1),
    (([3, 0, 0], ROOM), "7\n", OVERFLOW, 0),
    (([0, 0, 0], [1, 1000]), "7", CONSOLE_FAULT, 1),
    (([0, 2, 0], ROOM), "", CABINET_FAULT, 1),
    (([0, 3, 0], ROOM), "7\n", OVERFLOW, 0),
    (([0, 0, 1], ROOM), "7\n", NOTE_FAULT, 1),
    (([0, 0, 2], ROOM), "7\n", OVERFLOW, 0),
    (([0, 0, 0], [1000, 16]), "7\n", NOTE_FAULT, 1),
];

fn fails_so(alloc: Global, row: &Failure) -> Truth {
    let (plan, output, end, faults) = *row;
    let mut outside = Outside::make(alloc, FAILING, plan)?;
    let answered = outside.answers(alloc, "run a.t", &(end, None, output))?;
    let counted = outside.console.fault_count();
    let counted = counted.saturating_add(outside.cabinet.fault_count());
    let counted = counted.saturating_add(outside.notes.fault_count());
    Ok(answered && counted == faults)
}

#[test]
fn devices_fail_in_turn(rt: HostRuntime) {
    rows_hold(&rt, rt.alloc(), FAILURES, fails_so);
}
