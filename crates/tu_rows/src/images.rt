// Images, good and bad, and what the machine makes of their instructions.

use crate::outside::End::{BadImage, Fault};
use crate::outside::{AMPLE, Answer, CABINET_FAULT, ENDED, End, Outside, ROOM, SPENT, Truth};
use crate::rows::rows_hold;
use rv_image::ImageError::{Entry, Globals, Length, Magic, Short, Size, Version};
use rv_isa::FaultKind::{Address, Break, Fetch, Illegal, Misaligned, Service};
use rv_isa::{ImmediateOp, Instr, StoreKind, encode};
use std::alloc::Global;
use std::test::Fail;
use tu_base::{Bytes, Memory};
use tu_outside::CabinetError;

// The bytes `TURI`.
const TURI: u32 = 0x4952_5554;

// An image of one word, which asks for the end.
const LEAST: &[u32] = &[TURI, 1, 1, 0, 0, 0x73];

// The numbers of an image, how many instructions are counted, and the end.
type Row = (&'static [u32], u64, End);

const IMAGES: &[Row] = &[
    (LEAST, 1, ENDED),
    (&[0x4952_5555, 1, 1, 0, 0, 0x73], 0, BadImage(Magic)),
    (&[TURI, 2, 1, 0, 0, 0x73], 0, BadImage(Version)),
    (&[TURI, 1, 0xffff_ffff, 0, 0, 0x73], 0, BadImage(Length)),
    (&[TURI, 1, 1, 0, 2, 0x73], 0, BadImage(Entry)),
    (&[TURI, 1, 1, 0, 4, 0x73], 0, BadImage(Entry)),
    (&[TURI, 1, 0, 0, 0], 0, BadImage(Entry)),
    (&[TURI, 1, 1, 4_259_841, 0, 0x73], 0, BadImage(Globals)),
    (&[TURI, 1, 1, 0, 0, 0], 0, Fault(Illegal, 0x10000)),
    (&[TURI, 1, 1, 0, 0, 0x0010_0073], 0, Fault(Break, 0x10000)),
    (&[TURI, 1, 1, 0, 0, 0x0000_0067], 1, Fault(Fetch, 0)),
    (&[TURI, 1, 1, 0, 0, 0x0000_0013], 1, Fault(Fetch, 0x10004)),
    (
        &[TURI, 1, 1, 0, 0, 0x0010_2083],
        0,
        Fault(Misaligned, 0x10000),
    ),
    (&[TURI, 1, 1, 0, 0, 0x0000_2083], 0, Fault(Address, 0x10000)),
    (
        &[TURI, 1, 2, 0, 0, 0x0001_02b7, 0x0002_a023],
        1,
        Fault(Address, 0x10004),
    ),
    (
        &[TURI, 1, 2, 0, 0, 0x0090_0893, 0x0000_0073],
        1,
        Fault(Service, 0x10004),
    ),
];

// A jump to itself.
const NO_END: &[u32] = &[TURI, 1, 1, 0, 0, 0x0000_006f];

// Numbers as four bytes each, the lowest first.
fn push_numbers(bytes: &mut Bytes, numbers: &[u32]) -> Result<(), Memory> {
    for number in numbers {
        bytes.extend(&number.to_le_bytes())?;
    }
    Ok(())
}

fn bytes_of(alloc: Global, numbers: &[u32]) -> Result<Bytes, Memory> {
    let mut bytes = Bytes::make(alloc);
    push_numbers(&mut bytes, numbers)?;
    Ok(bytes)
}

// Whether bytes that are run as an image are answered so.
fn is_executed(alloc: Global, bytes: &[u8], line: &str, answer: &Answer) -> Truth {
    let mut outside = Outside::make(alloc, b"put 1", AMPLE)?;
    outside.keep(alloc, "a.img", bytes)?;
    Ok(outside.answers(alloc, line, answer)?)
}

fn ends_so(alloc: Global, bytes: &[u8], count: u64, end: End) -> Truth {
    is_executed(alloc, bytes, "exec a.img", &(end, Some(count), ""))
}

fn is_image(alloc: Global, row: &Row) -> Truth {
    let (numbers, count, end) = *row;
    let bytes = bytes_of(alloc, numbers)?;
    ends_so(alloc, bytes.as_slice(), count, end)
}

fn is_spent(alloc: Global) -> Truth {
    let bytes = bytes_of(alloc, NO_END)?;
    let answer = (SPENT, Some(50000), "");
    is_executed(alloc, bytes.as_slice(), "exec a.img budget=50000", &answer)
}

#[test]
fn images_run_or_fault(rt: HostRuntime) -> Result<(), Fail> {
    rows_hold(&rt, rt.alloc(), IMAGES, is_image);
    assert!(rt; is_spent(rt.alloc())?);
    Ok(())
}

// Whether the least image is bad wherever it is cut, and where it is longer by a byte.
fn is_bad_at_other_sizes(alloc: Global) -> Truth {
    let mut longer = bytes_of(alloc, LEAST)?;
    longer.add(0)?;
    for size in (0..24).chain(25..26) {
        let error = if size < 20 { Short } else { Length };
        let cut = longer.as_slice().get(..size).unwrap_or(&[]);
        if !ends_so(alloc, cut, 0, BadImage(error))? {
            return Ok(false);
        }
    }
    Ok(true)
}

fn is_bad_where_too_large(alloc: Global) -> Truth {
    match vec![in alloc; 0u8; 67_108_885] {
        Ok(larger) => ends_so(alloc, &larger, 0, BadImage(Size)),
        Err(_) => Ok(false),
    }
}

#[test]
fn images_of_other_sizes(rt: HostRuntime) -> Result<(), Fail> {
    assert!(rt; is_bad_at_other_sizes(rt.alloc())?);
    assert!(rt; is_bad_where_too_large(rt.alloc())?);
    Ok(())
}

// Code of an image. The first number is a register.
#[derive(Clone, Copy)]
enum Code {
    /// A number below 2048.
    Set(u8, u32),
    /// What another register has.
    Move(u8, u8),
    /// The address of a byte of the text, in two instructions.
    At(u8, u32),
    /// The byte in the second register is stored where the first one says.
    Store(u8, u8),
}

use Code::{At, Move, Set, Store};

// A service that is asked for, and the code before.
type Asked = (u32, &'static [Code]);

// Opens the file `p` and the file `q`, puts its name into each, the second first, and ends. These are 26 words.
const TWO_FILES: &[Asked] = &[
    (4, &[At(10, 104), Set(11, 1), Set(12, 1)]),
    (4, &[At(10, 105), Set(11, 1), Set(12, 1)]),
    (6, &[Set(10, 2), At(11, 105), Set(12, 1)]),
    (6, &[Set(10, 1), At(11, 104), Set(12, 1)]),
    (0, &[]),
];

// Reads a byte of the file `a.t` into the heap, writes it to the console, and ends. These are 15 words.
const FIRST_BYTE: &[Asked] = &[
    (4, &[At(10, 60), Set(11, 3), Set(12, 0)]),
    (7, &[]),
    (2, &[Store(4, 10), Move(10, 4), Set(11, 1)]),
    (0, &[]),
];

// The word of an instruction that fits, and else no instruction.
fn word(op: Instr) -> u32 {
    if op.fits() { encode(op) } else { 0 }
}

fn add(rd: u8, rs1: u8, value: u32) -> u32 {
    let op = ImmediateOp::Addi;
    word(Instr::Immediate { op, rd, rs1, value })
}

fn push_code(text: &mut Vec<u32>, code: Code) -> Result<(), Memory> {
    let upper = 0x10000;
    let (kind, offset) = (StoreKind::Byte, 0);
    match code {
        Set(rd, value) => text.push(add(rd, 0, value))?,
        Move(rd, from) => text.push(add(rd, from, 0))?,
        At(rd, place) => {
            text.push(word(Instr::Lui { rd, upper }))?;
            text.push(add(rd, rd, place))?;
        }
        Store(rs1, rs2) => text.push(word(Instr::Store {
            kind,
            rs1,
            rs2,
            offset,
        }))?,
    }
    Ok(())
}

// An image of code and four bytes behind it.
fn image_with(alloc: Global, asked: &[Asked], last: [u8; 4]) -> Result<Bytes, Memory> {
    let mut text = Vec::new(alloc);
    for (service, code) in asked {
        for code in *code {
            push_code(&mut text, *code)?;
        }
        text.push(add(17, 0, *service))?;
        text.push(word(Instr::Ecall))?;
    }
    text.push(u32::from_le_bytes(last))?;
    let words = text.len().min(1000) as u32;
    let mut bytes = bytes_of(alloc, &[TURI, 1, words, 0, 0])?;
    push_numbers(&mut bytes, &text)?;
    Ok(bytes)
}

fn reads_file(alloc: Global) -> Truth {
    let image = image_with(alloc, FIRST_BYTE, *b"a.t\0")?;
    let answer = (ENDED, Some(15), "p");
    is_executed(alloc, image.as_slice(), "exec a.img", &answer)
}

// The call of the cabinet that fails, the end, and what the two files hold. The calls are the source, the image, its
// fetch, and the two files.
type Kept = (u64, End, Option<&'static [u8]>, Option<&'static [u8]>);

const KEPT: &[Kept] = &[
    (0, ENDED, Some(b"p"), Some(b"q")),
    (4, CABINET_FAULT, None, None),
    (5, CABINET_FAULT, Some(b"p"), None),
];

// Devices with the image that opens two files. A call of the cabinet fails.
fn with_two_files(alloc: Global, failing: u64) -> Result<Outside, CabinetError> {
    let image = image_with(alloc, TWO_FILES, *b"pq\0\0")?;
    let mut outside = Outside::make(alloc, b"", ([0, failing, 0], ROOM))?;
    outside.keep(alloc, "a.img", image.as_slice())?;
    Ok(outside)
}

fn are_kept(alloc: Global, row: &Kept) -> Truth {
    let (failing, end, first, second) = *row;
    let mut outside = with_two_files(alloc, failing)?;
    let (status, count) = outside.outcome(alloc, "exec a.img")?;
    let first = outside.has_file(alloc, "p", first)?;
    let second = outside.has_file(alloc, "q", second)?;
    Ok(status == end.status() && count == 26 && first && second)
}

#[test]
fn files_are_read_and_kept(rt: HostRuntime) -> Result<(), Fail> {
    assert!(rt; reads_file(rt.alloc())?);
    // In the order of their numbers.
    rows_hold(&rt, rt.alloc(), KEPT, are_kept);
    Ok(())
}
