// Copies of linear code.

ghost use Rattle.std.specs.Prelude.{◌≡◌, IfOk};
ghost use Rattle.rv_flat.specs.declared.linear.Instruction.TheVariants as linear;

use ir_form::Plain;
use rv_flat::{
    Handler, Instruction, Linear, LinearRoutine, copied_handler, copied_plain, copied_values,
};
use sqlite_items::Items;
use std::alloc::Global;
use tu_base::{Bytes, Memory};

pub fn copied_linear(alloc: Global, linear: &Linear) -> Result<Linear, Memory>
    ensures { IfOk result (λ copy. copy ≡ linear.now) }
{
    let mut routines = Items::new(alloc);
    for r in linear.routines.as_slice() {
        let copy = copied_routine(alloc, r)?;
        routines.push(copy)?;
    }
    let texts = Bytes::from_slice(alloc, linear.texts.as_slice())?;
    Ok(Linear {
        globals: linear.globals,
        main: linear.main,
        routines,
        texts,
    })
}

fn copied_routine(alloc: Global, r: &LinearRoutine) -> Result<LinearRoutine, Memory>
    ensures { IfOk result (λ copy. copy ≡ r.now) }
{
    let parameters = copied_values(alloc, &r.parameters)?;
    let mut code = Items::new(alloc);
    for i in r.code.as_slice() {
        let copy = copied_instruction(alloc, i)?;
        code.push(copy)?;
    }
    Ok(LinearRoutine {
        parameters,
        code,
        room: r.room,
        words: r.words,
        depth: r.depth,
    })
}

fn copied_guarded(alloc: Global, plain: &Plain, handler: &Handler) -> Result<Instruction, Memory>
    ensures { IfOk result (λ copy. copy ≡ linear.Guarded plain.now handler.now) }
{
    let handler = copied_handler(alloc, handler)?;
    let plain = copied_plain(alloc, plain)?;
    Ok(Instruction::Guarded { plain, handler })
}

fn copied_instruction(alloc: Global, i: &Instruction) -> Result<Instruction, Memory>
    ensures { IfOk result (λ copy. copy ≡ i.now) }
{
    match i {
        Instruction::Plain(plain) => {
            let plain = copied_plain(alloc, plain)?;
            Ok(Instruction::Plain(plain))
        }
        Instruction::Guarded { plain, handler } => copied_guarded(alloc, plain, handler),
        Instruction::Open { mark } => Ok(Instruction::Open { mark: *mark }),
        Instruction::Branch {
            relation,
            left,
            right,
            label,
        } => Ok(Instruction::Branch {
            relation: *relation,
            left: *left,
            right: *right,
            label: *label,
        }),
        Instruction::Within {
            value,
            range,
            label,
        } => Ok(Instruction::Within {
            value: *value,
            range: *range,
            label: *label,
        }),
        Instruction::Hand { to, from } => {
            let to = copied_values(alloc, to)?;
            let from = copied_values(alloc, from)?;
            Ok(Instruction::Hand { to, from })
        }
        Instruction::Jump { label } => Ok(Instruction::Jump { label: *label }),
        Instruction::Label { label, marked } => Ok(Instruction::Label {
            label: *label,
            marked: *marked,
        }),
        Instruction::Back { gives } => {
            let gives = copied_values(alloc, gives)?;
            Ok(Instruction::Back { gives })
        }
    }
}
