// The values that linear code names.

ghost use Rattle.std.specs.Prelude.{◌≡◌, ◌++◌, IfOk, OnOk};
ghost use Rattle.ir_form.specs.Lawful.{plain_numbers};
ghost use Rattle.ir_form.specs.Values.{asked};
ghost use Rattle.rv_flat.specs.Parts.{instruction_numbers, linear_numbers};

use ir_form::Plain;
use rv_flat::{Instruction, LinearRoutine};
use rv_isa::Service;
use std::alloc::Global;
use tu_base::Memory;

/// The values that a routine names, in order, as often as it names them.
pub fn numbers_of(alloc: Global, r: &LinearRoutine) -> Result<Vec<u32>, Memory>
    ensures { IfOk result (λ numbers. numbers.items ≡ linear_numbers r.now) }
{
    let mut numbers = Vec::from_slice(alloc, r.parameters.as_slice())?;
    for i in r.code.as_slice() {
        put_instruction(&mut numbers, i)?;
    }
    Ok(numbers)
}

fn put(numbers: &mut Vec<u32>, more: &[u32]) -> Result<(), Memory>
    ensures { OnOk result (numbers.new.items ≡ numbers.old.items ++ more.now) }
{
    numbers.extend_from_slice(more)?;
    Ok(())
}

fn put_instruction(numbers: &mut Vec<u32>, i: &Instruction) -> Result<(), Memory>
    ensures { OnOk result (numbers.new.items ≡ numbers.old.items ++ instruction_numbers i.now) }
{
    match i {
        Instruction::Plain(plain) => put_plain(numbers, plain),
        Instruction::Guarded { plain, handler } => {
            put_plain(numbers, plain)?;
            put(numbers, handler.to.as_slice())
        }
        Instruction::Open { .. } => Ok(()),
        Instruction::Branch { left, right, .. } => put(numbers, &[*left, *right]),
        Instruction::Within { value, .. } => put(numbers, &[*value]),
        Instruction::Hand { to, from } => {
            put(numbers, to.as_slice())?;
            put(numbers, from.as_slice())
        }
        Instruction::Jump { .. } => Ok(()),
        Instruction::Label { .. } => Ok(()),
        Instruction::Back { gives } => put(numbers, gives.as_slice()),
    }
}

fn put_plain(numbers: &mut Vec<u32>, plain: &Plain) -> Result<(), Memory>
    ensures { OnOk result (numbers.new.items ≡ numbers.old.items ++ plain_numbers plain.now) }
{
    match plain {
        Plain::Constant { to, .. } => put(numbers, &[*to]),
        Plain::Global { to, .. } => put(numbers, &[*to]),
        Plain::Heap { to } => put(numbers, &[*to]),
        Plain::Frame { to, .. } => put(numbers, &[*to]),
        Plain::Text { to, .. } => put(numbers, &[*to]),
        Plain::Compute {
            to,
            left,
            right,
            ..
        } => put(numbers, &[*left, *right, *to]),
        Plain::Load { to, at, .. } => put(numbers, &[*at, *to]),
        Plain::Store { at, from, .. } => put(numbers, &[*at, *from]),
        Plain::Ask { to, service } => {
            put_service(numbers, *service)?;
            put(numbers, &[*to])
        }
        Plain::Call { arguments, to, .. } => {
            put(numbers, arguments.as_slice())?;
            put(numbers, to.as_slice())
        }
        Plain::Raise { .. } => Ok(()),
        Plain::Throw { kind, line } => put(numbers, &[*kind, *line]),
        Plain::Take { to, words, .. } => put(numbers, &[*words, *to]),
        Plain::Give { words } => put(numbers, &[*words]),
    }
}

fn put_service(numbers: &mut Vec<u32>, service: Service) -> Result<(), Memory>
    ensures { OnOk result (numbers.new.items ≡ numbers.old.items ++ asked service) }
{
    match service {
        Service::End => Ok(()),
        Service::Stop { kind, line } => put(numbers, &[kind, line]),
        Service::PutConsole { at, length } => put(numbers, &[at, length]),
        Service::GetConsole => Ok(()),
        Service::Open { at, length, mode } => put(numbers, &[at, length, mode]),
        Service::Close { stream } => put(numbers, &[stream]),
        Service::PutStream { stream, at, length } => put(numbers, &[stream, at, length]),
        Service::GetStream { stream } => put(numbers, &[stream]),
        Service::State { stream } => put(numbers, &[stream]),
    }
}
