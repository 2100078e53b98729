// The rooms of texts.
ghost use Rattle.std.specs.Prelude.{◌≡◌, IfOk, OnOk, map, sum_by};
ghost use Rattle.tu_base.specs.Shapes.{all_words};
ghost use Rattle.tu_core.specs.Rooms.{is_scalar_shape as is_scalar_shape_of, is_scalar_at as is_scalar_at_of, is_scalar_local as is_scalar_local_of, scalars_from, most_of as most_of_size, target_words as target_words_of, local_words as local_words_of, formal_words as formal_words_of, result_words as result_words_of, main_room as main_room_of};
ghost use Rattle.tu_core_types.specs.ProgramViews.{handler_view};
ghost use Rattle.tu_room_parts.specs.Capped.{capped};
ghost use Rattle.tu_room_parts.specs.declared.count.Count.TheVariants.{Results};
ghost use Rattle.tu_room_joins.specs.Flags.{scalars_in};
ghost use Rattle.tu_room.specs.Tables.{result_known, block_room_of, handler_room_of, own_words_of, blocks_room_of, routine_room_of, room_at};

use std::alloc::Global;
use tu_base::{MOST_TEXT_BYTES, Memory, Numbers, Shape};
use tu_core::{CallResult, Formal, LocalName, Size, Target};
use tu_core_types::{Block, Handler, Program, Routine};
use tu_room_counts::{block, nodes};
use tu_room_joins::{Scalars, joins};
use tu_room_parts::{
    Count, above_two, cut_off, known_words, plus, set_words, text_words, times, words,
};

fn is_scalar_shape(shape: &Shape) -> bool
    ensures { result ≡ is_scalar_shape_of shape.now }
{
    match shape {
        Shape::Scalar(_) => true,
        Shape::Text { .. } => false,
        Shape::Set { .. } => false,
        Shape::Pointer { .. } => false,
        Shape::Array { .. } => false,
        Shape::Record { .. } => false,
        Shape::Union { .. } => false,
    }
}

fn is_scalar_at(shapes: &[Shape], shape: u32) -> bool
    ensures { result ≡ is_scalar_at_of shapes.now shape }
{
    match shapes.get(shape as usize) {
        None => false,
        Some(shape) => is_scalar_shape(shape),
    }
}

fn is_scalar_local(shapes: &[Shape], local: &LocalName) -> bool
    ensures { result ≡ is_scalar_local_of shapes.now local.now }
{
    match local {
        LocalName::Declared { shape } => is_scalar_at(shapes, *shape),
        LocalName::DeclaredArray { .. } => false,
        LocalName::BoundName { shape } => is_scalar_at(shapes, *shape),
        LocalName::BoundText => false,
        LocalName::BoundArray { .. } => false,
        LocalName::Counter(_) => false,
        LocalName::Caught => false,
        LocalName::ResultName => false,
    }
}

fn scalar_flags(alloc: Global, shapes: &[Shape], locals: &[LocalName]) -> Result<Vec<bool>, Memory>
    ensures { IfOk result (λ flags. flags.items ≡ map (is_scalar_local_of shapes.now) locals.now) }
{
    let mut flags = Vec::new(alloc);
    for local in locals {
        flags.push(is_scalar_local(shapes, local))?;
    }
    Ok(flags)
}

/// The scalar locals behind so many formals.
#[tactic(auto, using(crate::proofs::Tabled::flagged_are))]
fn scalars(
    alloc: Global,
    shapes: &[Shape],
    formals: u64,
    locals: &[LocalName],
) -> Result<Scalars, Memory>
    ensures { IfOk result (λ scalars. scalars_in scalars ≡ scalars_from shapes.now formals locals.now) }
{
    let flags = scalar_flags(alloc, shapes, locals)?;
    Scalars::make(alloc, formals, flags)
}

fn most_of(size: Size) -> u32
    ensures { result ≡ most_of_size size }
{
    match size {
        Size::Most(most) => most,
        Size::AtName => MOST_TEXT_BYTES,
    }
}

fn target_words(target: &Target) -> u64
    ensures { result ≡ target_words_of target.now }
{
    match target {
        Target::TakesScalar(_) => 1,
        Target::TakesText(size) => text_words(most_of(*size)),
        Target::TakesSet(base) => set_words(base.members),
        Target::TakesPointer { .. } => 2,
    }
}

fn local_words(known: &Numbers, local: &LocalName) -> u64
    ensures { result ≡ capped (local_words_of known.now local.now) }
{
    match local {
        LocalName::Declared { shape } => cut_off(known_words(known, *shape)),
        LocalName::DeclaredArray { indexes, .. } => plus(1, indexes.len() as u64),
        LocalName::BoundName { .. } => 2,
        LocalName::BoundText => 2,
        LocalName::BoundArray { .. } => 2,
        LocalName::Counter(_) => 1,
        LocalName::Caught => 1,
        LocalName::ResultName => 0,
    }
}

fn locals_words(known: &Numbers, locals: &[LocalName]) -> u64
    ensures { result ≡ capped (sum_by (local_words_of known.now) locals.now) }
{
    let mut sum = 0;
    for local in locals {
        sum = plus(sum, local_words(known, local));
    }
    sum
}

fn formal_words(formal: &Formal) -> u64
    ensures { result ≡ formal_words_of formal.now }
{
    match formal {
        Formal::ByValue(target) => target_words(target),
        Formal::ByCopy(_) => 2,
        Formal::ByVar(_, _) => 2,
    }
}

fn formals_words(formals: &[Formal]) -> u64
    ensures { result ≡ capped (sum_by formal_words_of formals.now) }
{
    let mut sum = 0;
    for formal in formals {
        sum = plus(sum, formal_words(formal));
    }
    sum
}

fn result_words(known: &Numbers, gives: &CallResult) -> u64
    ensures { result ≡ result_words_of known.now gives.now }
{
    match gives {
        CallResult::Nothing => 0,
        CallResult::OneValue(target) => target_words(target),
        CallResult::OnePlace { shape } => known_words(known, *shape),
    }
}

/// What results are counted by: the words of each routine's result.
fn results(alloc: Global, known: &Numbers, routines: &[Routine]) -> Result<Count, Memory>
    ensures { IfOk result (λ count. count ≡ Results (map (result_known known.now) routines.now)) }
{
    let mut words = Numbers::make(alloc);
    for routine in routines {
        words.add(cut_off(above_two(result_words(known, &routine.gives))))?;
    }
    Ok(Count::Results(words))
}

fn block_room(
    alloc: Global,
    results: &Count,
    scalars: &mut Scalars,
    b: &Block,
) -> Result<u64, Memory>
    ensures room { IfOk result (λ n. n ≡ capped (block_room_of results.now (scalars_in scalars.old) b.now)) }
    ensures same { OnOk result (scalars.new ≡ scalars.old) }
{
    let joined = joins(alloc, scalars, b)?;
    let costs = times(12, plus(nodes(b), joined));
    Ok(plus(costs, block(results, b)))
}

/// What a handler adds, with the nodes of its clause and of its name.
fn handler_room(
    alloc: Global,
    results: &Count,
    scalars: &mut Scalars,
    handler: &Option<Handler>,
) -> Result<u64, Memory>
    ensures room { IfOk result (λ n. n ≡ capped (handler_room_of results.now (scalars_in scalars.old) (handler_view handler.now))) }
    ensures same { OnOk result (scalars.new ≡ scalars.old) }
{
    match handler {
        None => Ok(0),
        Some(handler) => {
            let room = block_room(alloc, results, scalars, &handler.block)?;
            Ok(plus(24, room))
        }
    }
}

fn own_words(known: &Numbers, r: &Routine) -> u64
    ensures { result ≡ capped (own_words_of known.now r.now) }
{
    let formals = formals_words(r.formals.as_slice());
    let locals = locals_words(known, r.locals.as_slice());
    let finding = if r.is_invariant { 1 } else { 0 };
    plus(
        formals,
        plus(result_words(known, &r.gives), plus(finding, locals)),
    )
}

fn blocks_room(
    alloc: Global,
    results: &Count,
    scalars: &mut Scalars,
    r: &Routine,
) -> Result<u64, Memory>
    ensures { IfOk result (λ n. n ≡ capped (blocks_room_of results.now (scalars_in scalars.old) r.now)) }
{
    let before = block_room(alloc, results, scalars, &r.before)?;
    let body = block_room(alloc, results, scalars, &r.body)?;
    let after = block_room(alloc, results, scalars, &r.after)?;
    let handler = handler_room(alloc, results, scalars, &r.handler)?;
    Ok(plus(before, plus(body, plus(after, handler))))
}

fn routine_room(
    alloc: Global,
    known: &Numbers,
    results: &Count,
    scalars: &mut Scalars,
    r: &Routine,
) -> Result<u64, Memory>
    ensures { IfOk result (λ n. n ≡ capped (routine_room_of known.now results.now (scalars_in scalars.old) r.now)) }
{
    let blocks = blocks_room(alloc, results, scalars, r)?;
    let texts = plus(times(12, r.stars as u64), blocks);
    Ok(plus(64, plus(own_words(known, r), texts)))
}

/// The rooms of a program's texts, each at most `MOST_ROOM`.
#[derive(Drop)]
pub struct Rooms {
    /// Those of its routines, by their numbers.
    pub routines: Numbers,
    /// That of the main program, to which the bodies of modules belong.
    pub main: u64,
}

fn routine_rooms(
    alloc: Global,
    p: &Program,
    known: &Numbers,
    results: &Count,
) -> Result<Numbers, Memory>
    requires words { known.now ≡ map capped (all_words p.now.shapes) }
    requires results { results.now ≡ Results (map (result_known known.now) p.now.routines) }
    ensures { IfOk result (λ rooms. rooms ≡ map (room_at p.now) p.now.routines) }
{
    let mut rooms = Numbers::make(alloc);
    for r in p.routines.as_slice() {
        let formals = r.formals.len() as u64;
        let mut xs = scalars(alloc, p.shapes.as_slice(), formals, r.locals.as_slice())?;
        rooms.add(routine_room(alloc, known, results, &mut xs, r)?)?;
    }
    Ok(rooms)
}

fn main_room(alloc: Global, p: &Program, known: &Numbers, results: &Count) -> Result<u64, Memory>
    requires words { known.now ≡ map capped (all_words p.now.shapes) }
    requires results { results.now ≡ Results (map (result_known known.now) p.now.routines) }
    ensures { IfOk result (λ room. room ≡ capped (main_room_of (all_words p.now.shapes) p.now)) }
{
    let mut xs = scalars(alloc, p.shapes.as_slice(), 0, p.locals.as_slice())?;
    let locals = locals_words(known, p.locals.as_slice());
    let blocks = block_room(alloc, results, &mut xs, &p.main)?;
    Ok(plus(64, plus(locals, blocks)))
}

/// The rooms of the texts of a program.
pub fn find_rooms(alloc: Global, p: &Program) -> Result<Rooms, Memory>
    ensures routines { IfOk result (λ rooms. rooms.routines ≡ map (room_at p.now) p.now.routines) }
    ensures main { IfOk result (λ rooms. rooms.main ≡ capped (main_room_of (all_words p.now.shapes) p.now)) }
{
    let known = words(alloc, p.shapes.as_slice())?;
    let results = results(alloc, &known, p.routines.as_slice())?;
    let routines = routine_rooms(alloc, p, &known, &results)?;
    let main = main_room(alloc, p, &known, &results)?;
    Ok(Rooms { routines, main })
}
