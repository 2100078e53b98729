// The routine that puts an int in decimal. The text is stored from its end on, byte before byte.

ghost use Rattle.std.specs.Prelude.{◌≡◌, [], ◌∷◌, ◌++◌, IfOk};
ghost use Rattle.ir_form.specs.declared.op.Op.TheViews.{If};
ghost use Rattle.rv_isa.specs.declared.instr.Relation.TheVariants.{LessUnsigned};
ghost use Rattle.rt_stream.specs.Routines.{blank_ops, blanks_op, digit_ops, digits_op, magnitude_op, put_int_ops, put_int_routine, sign_op, value_ops};

use crate::build::{branch, compute, cycle, giving, leave, put, store};
use ir_code::Code;
use ir_form::{Op, Region, Routine};
use rv_isa::{RegisterOp, Relation};
use sqlite_items::Items;
use std::alloc::Global;
use tu_base::Memory;
use tu_value::{Fixed, fixed_values, number};

// The values of the routine: its parameters and constants, and what is worked out.
const WORD: u32 = 0;

const WIDTH: u32 = 1;

const DIGIT_ZERO: u32 = 2;

const END: u32 = 3;

const TEN: u32 = 4;

const ONE: u32 = 5;

const FIXED: Fixed = Fixed { zero: 6, top: 7 };

const MINUS: u32 = 8;

const BLANK: u32 = 9;

const NUMBER: u32 = 10;

const OPPOSITE: u32 = 11;

const MAGNITUDE: u32 = 12;

const LEFT: u32 = 13;

const DIGITS_AT: u32 = 14;

const LAST_DIGIT: u32 = 15;

const DIGIT: u32 = 16;

const DIGIT_AT: u32 = 17;

const LEFT_NEXT: u32 = 18;

const DIGITS_BEGIN: u32 = 19;

const SIGN_AT: u32 = 20;

const INT_BEGINS: u32 = 21;

const WIDTH_BEGINS: u32 = 22;

const BLANKS_AT: u32 = 23;

const BLANK_AT: u32 = 24;

const TEXT_BEGINS: u32 = 25;

const TEXT_LENGTH: u32 = 26;

const REPLY: u32 = 27;

// The one region where the number is not below 0, and else the other.
fn by_sign(alloc: Global, above: Region, below: Region, to: u32) -> Result<Op, Memory>
    ensures { IfOk result (λ op. op ≡ If LessUnsigned 10 7 above below (to ∷ [])) }
{
    branch(
        alloc,
        Relation::LessUnsigned,
        NUMBER,
        FIXED.top,
        above,
        below,
        &[to],
    )
}

// How far the number is from 0.
fn magnitude(alloc: Global) -> Result<Op, Memory>
    ensures { IfOk result (λ op. op ≡ magnitude_op) }
{
    let opposite = vec![in alloc; compute(OPPOSITE, RegisterOp::Sub, FIXED.zero, NUMBER)]?;
    let above = giving(alloc, Items::new(alloc), &[NUMBER])?;
    let below = giving(alloc, Items::from_vec(opposite), &[OPPOSITE])?;
    by_sign(alloc, above, below, MAGNITUDE)
}

// Stores the last digit of what is left, and is the last round where nothing is left then.
fn digit(alloc: Global) -> Result<Items<Op>, Memory>
    ensures { IfOk result (λ ops. ops ≡ digit_ops) }
{
    let last = vec![in alloc; leave(alloc, DIGIT_AT)?]?;
    let last = giving(alloc, Items::from_vec(last), &[])?;
    let more = giving(alloc, Items::new(alloc), &[])?;
    let ends = branch(
        alloc,
        Relation::Equal,
        LEFT_NEXT,
        FIXED.zero,
        last,
        more,
        &[],
    )?;
    let ops = vec![in alloc;
        compute(LAST_DIGIT, RegisterOp::Remu, LEFT, TEN),
        compute(DIGIT, RegisterOp::Add, LAST_DIGIT, DIGIT_ZERO),
        compute(DIGIT_AT, RegisterOp::Sub, DIGITS_AT, ONE),
        store(DIGIT_AT, DIGIT),
        compute(LEFT_NEXT, RegisterOp::Divu, LEFT, TEN),
        ends,
    ]?;
    Ok(Items::from_vec(ops))
}

// Stores the digits of the magnitude.
fn digits(alloc: Global) -> Result<Op, Memory>
    ensures { IfOk result (λ op. op ≡ digits_op) }
{
    let ops = digit(alloc)?;
    cycle(
        alloc,
        &[MAGNITUDE, END],
        &[LEFT, DIGITS_AT],
        ops,
        &[LEFT_NEXT, DIGIT_AT],
        DIGITS_BEGIN,
    )
}

// A minus stands before the digits where the number is below 0.
fn sign(alloc: Global) -> Result<Op, Memory>
    ensures { IfOk result (λ op. op ≡ sign_op) }
{
    let minus = vec![in alloc;
        compute(SIGN_AT, RegisterOp::Sub, DIGITS_BEGIN, ONE),
        store(SIGN_AT, MINUS),
    ]?;
    let above = giving(alloc, Items::new(alloc), &[DIGITS_BEGIN])?;
    let below = giving(alloc, Items::from_vec(minus), &[SIGN_AT])?;
    by_sign(alloc, above, below, INT_BEGINS)
}

// Stores a blank, but where the text has its width this is the last round.
fn blank(alloc: Global) -> Result<Items<Op>, Memory>
    ensures { IfOk result (λ ops. ops ≡ blank_ops) }
{
    let more = giving(alloc, Items::new(alloc), &[])?;
    let last = vec![in alloc; leave(alloc, BLANKS_AT)?]?;
    let last = giving(alloc, Items::from_vec(last), &[])?;
    let ends = branch(
        alloc,
        Relation::LessUnsigned,
        WIDTH_BEGINS,
        BLANKS_AT,
        more,
        last,
        &[],
    )?;
    let ops = vec![in alloc;
        ends,
        compute(BLANK_AT, RegisterOp::Sub, BLANKS_AT, ONE),
        store(BLANK_AT, BLANK),
    ]?;
    Ok(Items::from_vec(ops))
}

// Stores blanks before the int.
fn blanks(alloc: Global) -> Result<Op, Memory>
    ensures { IfOk result (λ op. op ≡ blanks_op) }
{
    let ops = blank(alloc)?;
    cycle(
        alloc,
        &[INT_BEGINS],
        &[BLANKS_AT],
        ops,
        &[BLANK_AT],
        TEXT_BEGINS,
    )
}

// The constants, and the number of the int behind them.
fn values(alloc: Global) -> Result<Code, Memory>
    ensures { IfOk result (λ code. code ≡ record { ops = value_ops; next = 11 }) }
{
    let mut code = Code::new(alloc, DIGIT_ZERO);
    code.constant(48)?;
    code.frame(64)?;
    code.constant(10)?;
    code.constant(1)?;
    let fixed = fixed_values(&mut code)?;
    code.constant(45)?;
    code.constant(32)?;
    number(&mut code, fixed, WORD)?;
    Ok(code)
}

// The values, and what stores the text of the number.
fn number_text(alloc: Global) -> Result<Code, Memory>
    ensures { IfOk result (λ code. code ≡ record { ops = value_ops ++ magnitude_op ∷ digits_op ∷ sign_op ∷ []; next = 11 }) }
{
    let mut code = values(alloc)?;
    code.push(magnitude(alloc)?)?;
    code.push(digits(alloc)?)?;
    code.push(sign(alloc)?)?;
    Ok(code)
}

// The text of the number is stored with blanks before it, and put at the end.
fn int_ops(alloc: Global) -> Result<Items<Op>, Memory>
    ensures { IfOk result (λ ops. ops ≡ put_int_ops) }
{
    let mut code = number_text(alloc)?;
    code.push(compute(WIDTH_BEGINS, RegisterOp::Sub, END, WIDTH))?;
    code.push(blanks(alloc)?)?;
    code.push(compute(TEXT_LENGTH, RegisterOp::Sub, END, TEXT_BEGINS))?;
    code.push(put(REPLY, TEXT_BEGINS, TEXT_LENGTH))?;
    Ok(code.ops)
}

/// It takes the word of an int and a width up to 255. The text ends where the last word of the frame
/// begins.
pub fn put_int(alloc: Global) -> Result<Routine, Memory>
    ensures { IfOk result (λ routine. routine ≡ put_int_routine) }
{
    let ops = int_ops(alloc)?;
    let parameters = Items::from_slice(alloc, &[WORD, WIDTH])?;
    let body = Region {
        parameters,
        ops,
        results: Items::new(alloc),
    };
    Ok(Routine {
        body,
        results: 0,
        room: 128,
        words: 65,
        depth: 1,
    })
}
