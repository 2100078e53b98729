// Region code in few words.

ghost use Rattle.std.specs.Prelude.{◌≡◌, [], ◌∷◌, IfOk};
ghost use Rattle.ir_form.specs.declared.plain.Width.TheVariants.{Byte};
ghost use Rattle.ir_code.specs.Pieces.{ask, compute, store};
ghost use Rattle.rt_stream.specs.Pieces.{cycle_of, giving, leave_with};
ghost use Rattle.rv_isa.specs.declared.service.Service.TheVariants.{PutConsole};
ghost use Rattle.ir_form.specs.declared.op.Op.TheViews.{If};

use ir_form::{Exit, Op, Plain, Region, Width};
use rv_isa::{RegisterOp, Relation, Service};
use sqlite_items::Items;
use std::alloc::Global;
use tu_base::Memory;

/// What an operation of the machine gives on two values.
pub fn compute(to: u32, op: RegisterOp, left: u32, right: u32) -> Op
    ensures { result ≡ compute to op left right }
{
    Op::Plain(Plain::Compute {
        to,
        op,
        left,
        right,
    })
}

/// Puts the lowest byte of a value at an address.
pub fn store(at: u32, from: u32) -> Op
    ensures { result ≡ store Byte at from }
{
    let width = Width::Byte;
    Op::Plain(Plain::Store { width, at, from })
}

/// Puts bytes to the console.
pub fn put(to: u32, at: u32, length: u32) -> Op
    ensures { result ≡ ask to (PutConsole at length) }
{
    let service = Service::PutConsole { at, length };
    Op::Plain(Plain::Ask { to, service })
}

/// The end of the innermost loop, which takes a value.
pub fn leave(alloc: Global, value: u32) -> Result<Op, Memory>
    ensures { IfOk result (λ op. op ≡ leave_with value) }
{
    let gives = Items::from_slice(alloc, &[value])?;
    Ok(Op::Leave {
        exit: Exit::Loop(0),
        gives,
    })
}

/// A region that takes no values.
pub fn giving(alloc: Global, ops: Items<Op>, results: &[u32]) -> Result<Region, Memory>
    ensures { IfOk result (λ region. region ≡ giving ops results.now) }
{
    let results = Items::from_slice(alloc, results)?;
    Ok(Region {
        parameters: Items::new(alloc),
        ops,
        results,
    })
}

/// The one region where the relation holds between two values, and else the other. `to` takes what
/// it gives.
pub fn branch(
    alloc: Global,
    relation: Relation,
    left: u32,
    right: u32,
    yes: Region,
    no: Region,
    to: &[u32],
) -> Result<Op, Memory>
    ensures { IfOk result (λ op. op ≡ If relation left right yes no to.now) }
{
    let to = Items::from_slice(alloc, to)?;
    Ok(Op::If {
        relation,
        left,
        right,
        yes,
        no,
        to,
    })
}

/// Rounds, none of which is a turn. `parameters` take the values `start` at first and then those that
/// a round gives, and `to` takes the value that ends them.
pub fn cycle(
    alloc: Global,
    start: &[u32],
    parameters: &[u32],
    ops: Items<Op>,
    results: &[u32],
    to: u32,
) -> Result<Op, Memory>
    ensures { IfOk result (λ op. op ≡ cycle_of start.now parameters.now ops results.now (to ∷ [])) }
{
    let start = Items::from_slice(alloc, start)?;
    let parameters = Items::from_slice(alloc, parameters)?;
    let results = Items::from_slice(alloc, results)?;
    let to = Items::from_slice(alloc, &[to])?;
    let body = Region {
        parameters,
        ops,
        results,
    };
    Ok(Op::Loop {
        marked: false,
        start,
        body,
        to,
    })
}
