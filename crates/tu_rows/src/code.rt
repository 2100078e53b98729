// Region code as tables, and the units that tables tell.

use ir_form::{Exit, Op, Plain, Region, Routine, Unit, Width};
use rv_isa::{RegisterOp, Relation, Service};
use sqlite_items::Items;
use std::alloc::Global;
use tu_base::{Bytes, Kind, Line, Memory};

/// Operations. Of the numbers the first is the value that is defined.
#[derive(Clone, Copy)]
pub enum Step {
    /// The address of the routine's first word of memory.
    Frame(u32),
    Constant(u32, u32),
    /// Constants of one word, from a value to one before another.
    Constants(u32, u32, u32),
    Plus(u32, u32, u32),
    /// Each the value before it and value 1, from a value to one before another.
    Counted(u32, u32),
    Minus(u32, u32, u32),
    /// The address of a byte of the literals.
    Literal(u32, u32),
    /// Puts bytes to the console, from an address and as many as a value says.
    Put(u32, u32, u32),
    /// Puts the low byte of a value by way of the main program's word. The second number is the reply.
    PutByte(u32, u32),
    /// Calls routine 1 with a value, at a line.
    Call(u32, Line),
    Raise(Kind, Line),
    /// Leaves the innermost loop with values where the relation holds.
    Leave(Relation, u32, u32, Values),
}

pub type Values = &'static [u32];

pub type Steps = &'static [Step];

/// A part of a routine.
#[derive(Clone, Copy)]
pub enum Part {
    Do(Steps),
    /// A loop of the program: what the first round takes, what a round calls it, the code of a round, what
    /// it hands on, and what the loop defines.
    Loop(Values, Values, Steps, Values, Values),
    /// The first code where the relation holds, and else the second.
    If(Relation, u32, u32, Steps, Steps),
}

type Made<T> = Result<T, Memory>;

fn values(alloc: Global, numbers: &[u32]) -> Made<Items<u32>> {
    let items = Items::from_slice(alloc, numbers)?;
    Ok(items)
}

fn region(parameters: Items<u32>, ops: Items<Op>, results: Items<u32>) -> Region {
    Region {
        parameters,
        ops,
        results,
    }
}

fn computed(op: RegisterOp, to: u32, left: u32, right: u32) -> Op {
    Op::Plain(Plain::Compute {
        to,
        op,
        left,
        right,
    })
}

fn put(to: u32, at: u32, length: u32) -> Op {
    let service = Service::PutConsole { at, length };
    Op::Plain(Plain::Ask { to, service })
}

fn call(alloc: Global, argument: u32, line: Line) -> Made<Op> {
    let arguments = values(alloc, &[argument])?;
    Ok(Op::Plain(Plain::Call {
        routine: 1,
        arguments,
        to: Items::new(alloc),
        line,
    }))
}

fn choice(alloc: Global, relation: Relation, values: (u32, u32), yes: Region, no: Region) -> Op {
    Op::If {
        relation,
        left: values.0,
        right: values.1,
        yes,
        no,
        to: Items::new(alloc),
    }
}

fn leave(alloc: Global, relation: Relation, sides: (u32, u32), gives: Values) -> Made<Op> {
    let exit = Exit::Loop(0);
    let gives = values(alloc, gives)?;
    let ops = vec![in alloc; Op::Leave { exit, gives }]?;
    let yes = region(Items::new(alloc), Items::from_vec(ops), Items::new(alloc));
    let no = region(Items::new(alloc), Items::new(alloc), Items::new(alloc));
    Ok(choice(alloc, relation, sides, yes, no))
}

// The operation of a step, and of several the first.
fn op_of(alloc: Global, step: Step) -> Made<Op> {
    let (width, at) = (Width::Byte, 0);
    match step {
        Step::Frame(to) => Ok(Op::Plain(Plain::Frame { to, word: 0 })),
        Step::Constant(to, word) => Ok(Op::Plain(Plain::Constant { to, word })),
        Step::Constants(to, _, word) => Ok(Op::Plain(Plain::Constant { to, word })),
        Step::Plus(to, left, right) => Ok(computed(RegisterOp::Add, to, left, right)),
        Step::Counted(to, _) => Ok(computed(RegisterOp::Add, to, to.saturating_sub(1), 1)),
        Step::Minus(to, left, right) => Ok(computed(RegisterOp::Sub, to, left, right)),
        Step::Literal(to, byte) => Ok(Op::Plain(Plain::Text { to, byte })),
        Step::Put(to, at, length) => Ok(put(to, at, length)),
        Step::PutByte(from, _) => Ok(Op::Plain(Plain::Store { width, at, from })),
        Step::Call(argument, line) => call(alloc, argument, line),
        Step::Raise(kind, line) => Ok(Op::Plain(Plain::Raise { kind, line })),
        Step::Leave(relation, left, right, gives) => leave(alloc, relation, (left, right), gives),
    }
}

fn push_steps(alloc: Global, steps: Steps, ops: &mut Items<Op>) -> Made<()> {
    for step in steps {
        ops.push(op_of(alloc, *step)?)?;
        match *step {
            Step::Constants(first, behind, word) => {
                for to in first.saturating_add(1)..behind {
                    ops.push(op_of(alloc, Step::Constant(to, word))?)?;
                }
            }
            Step::Counted(first, behind) => {
                for to in first.saturating_add(1)..behind {
                    ops.push(op_of(alloc, Step::Counted(to, behind))?)?;
                }
            }
            Step::PutByte(_, reply) => ops.push(put(reply, 0, 1))?,
            _ => {}
        }
    }
    Ok(())
}

fn region_of(alloc: Global, parameters: Values, steps: Steps, results: Values) -> Made<Region> {
    let parameters = values(alloc, parameters)?;
    let results = values(alloc, results)?;
    let mut ops = Items::new(alloc);
    push_steps(alloc, steps, &mut ops)?;
    Ok(region(parameters, ops, results))
}

fn push_part(alloc: Global, part: Part, ops: &mut Items<Op>) -> Made<()> {
    match part {
        Part::Do(steps) => push_steps(alloc, steps, ops)?,
        Part::Loop(start, parameters, steps, results, to) => {
            let start = values(alloc, start)?;
            let to = values(alloc, to)?;
            let body = region_of(alloc, parameters, steps, results)?;
            ops.push(Op::Loop {
                marked: true,
                start,
                body,
                to,
            })?;
        }
        Part::If(relation, left, right, yes, no) => {
            let yes = region_of(alloc, &[], yes, &[])?;
            let no = region_of(alloc, &[], no, &[])?;
            ops.push(choice(alloc, relation, (left, right), yes, no))?;
        }
    }
    Ok(())
}

fn body_of(alloc: Global, parameters: Values, first: Steps, parts: &[Part]) -> Made<Region> {
    let mut body = region_of(alloc, parameters, first, &[])?;
    for part in parts {
        push_part(alloc, *part, &mut body.ops)?;
    }
    Ok(body)
}

fn routine_of(body: Region, room: u64, words: u64) -> Routine {
    Routine {
        body,
        results: 0,
        room,
        words,
        depth: 0,
    }
}

/// A unit: a main program with this room, which begins with the address of its one word as value 0 and 1 as value 1,
/// routine 1 with the parameter 0 and a room of 161 words where it has parts, and the bytes of the literals.
pub fn unit_of(
    alloc: Global,
    room: u64,
    main: &[Part],
    callee: &[Part],
    texts: &str,
) -> Made<Unit> {
    let first: Steps = &[Step::Frame(0), Step::Constant(1, 1)];
    let mut routines = Items::new(alloc);
    routines.push(routine_of(body_of(alloc, &[], first, main)?, room, 1))?;
    if !callee.is_empty() {
        routines.push(routine_of(body_of(alloc, &[0], &[], callee)?, 161, 0))?;
    }
    let texts = Bytes::from_slice(alloc, texts.as_bytes())?;
    Ok(Unit {
        globals: 0,
        main: 0,
        routines,
        texts,
    })
}
