// Instructions, their words and their bytes.

use crate::rows::rows_hold;
use rv_image::Image;
use rv_isa::Instr::{Branch, Immediate, Jal, Register, Store};
use rv_isa::{ImmediateOp, Instr, RegisterOp, Relation, StoreKind, Text, decode, encode};
use std::alloc::Global;
use tu_base::Memory;

const ADDI: Instr = Immediate {
    op: ImmediateOp::Addi,
    rd: 1,
    rs1: 0,
    value: 5,
};

const ADD: Instr = Register {
    op: RegisterOp::Add,
    rd: 3,
    rs1: 1,
    rs2: 2,
};

const MUL: Instr = Register {
    op: RegisterOp::Mul,
    rd: 3,
    rs1: 1,
    rs2: 2,
};

const SW: Instr = Store {
    kind: StoreKind::Word,
    rs1: 1,
    rs2: 2,
    offset: 8,
};

const BEQ: Instr = Branch {
    relation: Relation::Equal,
    rs1: 1,
    rs2: 2,
    offset: 8,
};

// A word, its instruction if it has one, and its bytes in an image.
type Row = (u32, Option<Instr>, [u8; 4]);

const WORDS: &[Row] = &[
    (0x0050_0093, Some(ADDI), [0x93, 0, 0x50, 0]),
    (0x0020_81b3, Some(ADD), [0xb3, 0x81, 0x20, 0]),
    (0x0220_81b3, Some(MUL), [0xb3, 0x81, 0x20, 2]),
    (0x0020_a423, Some(SW), [0x23, 0xa4, 0x20, 0]),
    (0x0020_8463, Some(BEQ), [0x63, 0x84, 0x20, 0]),
    (
        0x0100_00ef,
        Some(Jal { rd: 1, offset: 16 }),
        [0xef, 0, 0, 1],
    ),
    (0, None, [0, 0, 0, 0]),
    (0x0420_81b3, None, [0xb3, 0x81, 0x20, 4]),
];

// Two instructions that fit have one word only where they are the same.
fn is_decoded(word: u32) -> bool {
    match decode(word) {
        Some(found) => encode(found) == word,
        None => false,
    }
}

fn is_word(alloc: Global, row: &Row) -> Result<bool, Memory> {
    let (word, op, bytes) = *row;
    let same = match op {
        Some(op) => op.fits() && encode(op) == word && is_decoded(word),
        None => decode(word).is_none(),
    };
    let image = Image::make(Text::from_slice(alloc, &[word])?, 0, 0).bytes(alloc)?;
    let (_, last) = image.as_slice().split_at(20);
    Ok(same && image.len() == 24 && last == bytes.as_slice())
}

#[test]
fn instructions_have_their_words(rt: HostRuntime) {
    rows_hold(&rt, rt.alloc(), WORDS, is_word);
}
