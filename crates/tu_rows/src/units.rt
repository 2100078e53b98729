// Units made by hand, and what their images do.

use crate::code::Part::{Do, If, Loop};
use crate::code::Step::{
    Call, Constant, Constants, Counted, Leave, Literal, Minus, Plus, Put, PutByte, Raise,
};
use crate::code::{Part, Steps, unit_of};
use crate::outside::{AMPLE, Outside, Truth};
use crate::rows::{Text, rows_hold};
use ir_form::valid;
use rv_alloc::{Assigned, assign, holds};
use rv_emit::{Emitted, emit, text_words};
use rv_flat::flat;
use rv_host::HostEnd::Ended;
use rv_host::{HostEnd, run};
use rv_image::Image;
use rv_isa::Relation::{Equal, Less};
use rv_machine::Machine;
use std::alloc::Global;
use std::test::Fail;
use tu_base::{Kind, Memory};

// Puts the digits from 0 to 9, a round for each.
const DIGITS: Parts = &[
    Do(&[Constant(2, 48), Constant(3, 58)]),
    Loop(&[2], &[4], DIGIT, &[6], &[]),
];

const DIGIT: Steps = &[PutByte(4, 5), Plus(6, 4, 1), Leave(Equal, 6, 3, &[])];

// Puts the sum of the numbers from 1 to 10 as a byte. It is 55.
const SUM: Parts = &[
    Do(&[Constant(2, 0), Constant(3, 10)]),
    Loop(&[1, 2], &[4, 5], ADD, &[8, 7], &[6]),
    Do(&[PutByte(6, 9)]),
];

const ADD: Steps = &[Leave(Less, 3, 4, &[5]), Plus(7, 5, 4), Plus(8, 4, 1)];

// Calls itself, at line 3, with one less until that is 1.
const DOWN: Parts = &[
    Do(&[Constant(1, 1)]),
    If(Less, 1, 0, &[Minus(2, 0, 1), Call(2, 3)], &[]),
];

const DEEPEST: Parts = &[Do(&[Constant(2, 52102), Call(2, 6)])];

const DEEPER: Parts = &[Do(&[Constant(2, 52103), Call(2, 6)])];

// Values that are each one more than the one before. The last is 2,999, and what it has above 2,951 is put as a byte.
const MANY_VALUES: Parts = &[Do(&[
    Counted(2, 3000),
    Constant(3000, 2951),
    Minus(3001, 2999, 3000),
    PutByte(3001, 3002),
])];

// A choice with 62,000 constants on one side, which puts `a`. The other side, which is taken, puts `b`, and
// behind it the same byte is put again.
const FAR_JUMP: Parts = &[
    Do(&[Constant(2, 97), Constant(3, 98)]),
    If(Equal, 0, 1, LONG_SIDE, &[PutByte(3, 62005)]),
    Do(&[Put(62006, 0, 1)]),
];

const LONG_SIDE: Steps = &[PutByte(2, 4), Constants(5, 62005, 0x1234_5678)];

// Seven rounds, which value 2 counts, and a letter that each puts. The letters are handed on in a cycle.
const ONE_LETTER: Parts = &[
    Do(&[Constant(2, 7), Constant(3, 0), Constant(10, 97)]),
    Loop(&[2, 10], &[4, 100], TURN, &[5, 100], &[]),
];

const TWO_LETTERS: Parts = &[
    Do(&[Constant(2, 7), Constant(3, 0)]),
    Do(&[Constant(10, 97), Constant(11, 98)]),
    Loop(&[2, 10, 11], &[4, 100, 101], TURN, &[5, 101, 100], &[]),
];

const THREE_LETTERS: Parts = &[
    Do(&[Constant(2, 7), Constant(3, 0)]),
    Do(&[Constant(10, 97), Constant(11, 98), Constant(12, 99)]),
    Loop(LETTERS, &[4, 100, 101, 102], TURN, &[5, 101, 102, 100], &[]),
];

const LETTERS: &[u32] = &[2, 10, 11, 12];

const TURN: Steps = &[PutByte(100, 6), Minus(5, 4, 1), Leave(Equal, 5, 3, &[])];

// Puts the three bytes of its literal from the second on, and raises Assert at line 70,000.
const LITERAL: Parts = &[
    Do(&[Literal(2, 1), Constant(3, 3), Put(4, 2, 3)]),
    Do(&[Raise(Kind::Assert, 70000)]),
];

const ASSERT: HostEnd = HostEnd::Stopped {
    kind: Kind::Assert,
    line: 70000,
};

const STORAGE: HostEnd = HostEnd::Stopped {
    kind: Kind::Storage,
    line: 3,
};

// A unit as `unit_of` takes it, how its image ends, and what that puts.
type Row = (u64, Parts, Parts, Text, HostEnd, Text);

type Parts = &'static [Part];

const FAR: Row = (1000000, FAR_JUMP, &[], "", Ended, "bb");

const UNITS: &[Row] = &[
    (88, DIGITS, &[], "", Ended, "0123456789"),
    (88, SUM, &[], "", Ended, "7"),
    (200, ONE_LETTER, &[], "", Ended, "aaaaaaa"),
    (200, TWO_LETTERS, &[], "", Ended, "abababa"),
    (200, THREE_LETTERS, &[], "", Ended, "abcabca"),
    (88, LITERAL, &[], "abcde", ASSERT, "bcd"),
    (88, DEEPEST, DOWN, "", Ended, ""),
    (88, DEEPER, DOWN, "", STORAGE, ""),
    (100000, MANY_VALUES, &[], "", Ended, "0"),
    FAR,
];

// The image of assigned code, or none where it is too large for one.
fn image_of(alloc: Global, assigned: &Assigned) -> Result<Option<Image>, Memory> {
    if text_words(assigned) > 16777216 {
        return Ok(None);
    }
    let Emitted {
        text,
        entry,
        globals,
    } = emit(alloc, assigned)?;
    let words = text.as_slice().len() as u64;
    if words == 0 || words > 16777216 || entry != 0 || globals > 4259840 {
        return Ok(None);
    }
    Ok(Some(Image::make(text, globals, entry)))
}

// Whether an image ends so and puts these bytes.
fn runs(alloc: Global, image: &Image, end: HostEnd, output: &str) -> Truth {
    let mut outside = Outside::make(alloc, b"", AMPLE)?;
    let mut machine = Machine::load(alloc, image)?;
    let (console, cabinet) = (&mut outside.console, &mut outside.cabinet);
    let left = run(alloc, &mut machine, console, cabinet, 100000000);
    Ok(left == end && outside.has_written(output))
}

// The code of a unit that is valid, with its places, where they hold.
fn assigned(alloc: Global, row: &Row) -> Result<Option<Assigned>, Memory> {
    let (room, main, callee, texts, _, _) = *row;
    let unit = unit_of(alloc, room, main, callee, texts)?;
    let linear = flat(alloc, &unit)?;
    let assigned = assign(alloc, &linear)?;
    let is_held = holds(alloc, &linear, &assigned)?;
    Ok((is_held && valid(&unit)).then_some(assigned))
}

// Whether a unit is valid, its code assigned so that it holds, and its image ends so and puts these bytes.
fn does_so(alloc: Global, row: &Row) -> Truth {
    let Some(assigned) = assigned(alloc, row)? else {
        return Ok(false);
    };
    match image_of(alloc, &assigned)? {
        Some(image) => runs(alloc, &image, row.4, row.5),
        None => Ok(false),
    }
}

#[test]
fn units_do_what_they_tell(rt: HostRuntime) -> Result<(), Fail> {
    rows_hold(&rt, rt.alloc(), UNITS, does_so);
    let far = assigned(rt.alloc(), &FAR)?;
    assert!(rt; far.is_some_and(|far| text_words(&far) > 300000));
    Ok(())
}
