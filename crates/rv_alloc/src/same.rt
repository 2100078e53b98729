// Whether two pieces of linear code are the same.

ghost use Rattle.std.specs.Prelude.{◌≡◌, ◌↔◌, IsTrue};
ghost use Rattle.rv_flat.specs.declared.linear.Instruction.TheVariants as linear;

use crate::plain::{same_plain, same_values};
use ir_form::{Plain, Range};
use rv_flat::{Handler, Instruction, Linear, LinearRoutine};
use rv_isa::Relation;
use sqlite_items::Items;

pub fn same_linear(a: &Linear, b: &Linear) -> bool
    ensures { IsTrue result ↔ (a.now ≡ b.now) }
{
    a.globals == b.globals
        && a.main == b.main
        && a.texts.as_slice() == b.texts.as_slice()
        && same_routines(a.routines.as_slice(), b.routines.as_slice())
}

fn same_routines(a: &[LinearRoutine], b: &[LinearRoutine]) -> bool
    ensures { IsTrue result ↔ (a.now ≡ b.now) }
{
    if a.len() != b.len() {
        return false;
    }
    for i in 0..a.len() {
        if !same_routine(&a[i], &b[i]) {
            return false;
        }
    }
    true
}

fn same_routine(a: &LinearRoutine, b: &LinearRoutine) -> bool
    ensures { IsTrue result ↔ (a.now ≡ b.now) }
{
    a.room == b.room
        && a.words == b.words
        && a.depth == b.depth
        && same_values(&a.parameters, &b.parameters)
        && same_code(a.code.as_slice(), b.code.as_slice())
}

fn same_code(a: &[Instruction], b: &[Instruction]) -> bool
    ensures { IsTrue result ↔ (a.now ≡ b.now) }
{
    if a.len() != b.len() {
        return false;
    }
    for i in 0..a.len() {
        if !same_instruction(&a[i], &b[i]) {
            return false;
        }
    }
    true
}

fn same_instruction(a: &Instruction, b: &Instruction) -> bool
    ensures { IsTrue result ↔ (a.now ≡ b.now) }
{
    match a {
        Instruction::Plain(plain) => is_plain(b, plain),
        Instruction::Guarded { plain, handler } => is_guarded(b, plain, handler),
        Instruction::Open { mark } => is_open(b, *mark),
        Instruction::Branch {
            relation,
            left,
            right,
            label,
        } => is_branch(b, *relation, *left, *right, *label),
        Instruction::Within {
            value,
            range,
            label,
        } => is_within(b, *value, range, *label),
        Instruction::Hand { to, from } => is_hand(b, to, from),
        Instruction::Jump { label } => is_jump(b, *label),
        Instruction::Label { label, marked } => is_label(b, *label, *marked),
        Instruction::Back { gives } => is_back(b, gives),
    }
}

fn is_plain(i: &Instruction, plain: &Plain) -> bool
    ensures { IsTrue result ↔ (i.now ≡ linear.Plain plain.now) }
{
    match i {
        Instruction::Plain(other) => same_plain(other, plain),
        _ => false,
    }
}

fn same_handler(a: &Handler, b: &Handler) -> bool
    ensures { IsTrue result ↔ (a.now ≡ b.now) }
{
    a.label == b.label && a.mark == b.mark && same_values(&a.to, &b.to)
}

fn is_guarded(i: &Instruction, plain: &Plain, handler: &Handler) -> bool
    ensures { IsTrue result ↔ (i.now ≡ linear.Guarded plain.now handler.now) }
{
    match i {
        Instruction::Guarded {
            plain: other,
            handler: h,
        } => same_plain(other, plain) && same_handler(h, handler),
        _ => false,
    }
}

fn is_open(i: &Instruction, mark: u32) -> bool
    ensures { IsTrue result ↔ (i.now ≡ linear.Open mark) }
{
    match i {
        Instruction::Open { mark: other } => *other == mark,
        _ => false,
    }
}

fn is_branch(i: &Instruction, relation: Relation, left: u32, right: u32, label: u64) -> bool
    ensures { IsTrue result ↔ (i.now ≡ linear.Branch relation left right label) }
{
    match i {
        Instruction::Branch {
            relation: r,
            left: x,
            right: y,
            label: n,
        } => *r == relation && *x == left && *y == right && *n == label,
        _ => false,
    }
}

fn is_within(i: &Instruction, value: u32, range: &Range, label: u64) -> bool
    ensures { IsTrue result ↔ (i.now ≡ linear.Within value range.now label) }
{
    match i {
        Instruction::Within {
            value: x,
            range: r,
            label: n,
        } => *x == value && r == range && *n == label,
        _ => false,
    }
}

fn is_hand(i: &Instruction, to: &Items<u32>, from: &Items<u32>) -> bool
    ensures { IsTrue result ↔ (i.now ≡ linear.Hand to.now from.now) }
{
    match i {
        Instruction::Hand { to: xs, from: ys } => same_values(xs, to) && same_values(ys, from),
        _ => false,
    }
}

fn is_jump(i: &Instruction, label: u64) -> bool
    ensures { IsTrue result ↔ (i.now ≡ linear.Jump label) }
{
    match i {
        Instruction::Jump { label: n } => *n == label,
        _ => false,
    }
}

fn is_label(i: &Instruction, label: u64, marked: bool) -> bool
    ensures { IsTrue result ↔ (i.now ≡ linear.Label label marked) }
{
    match i {
        Instruction::Label {
            label: n,
            marked: m,
        } => *n == label && *m == marked,
        _ => false,
    }
}

fn is_back(i: &Instruction, gives: &Items<u32>) -> bool
    ensures { IsTrue result ↔ (i.now ≡ linear.Back gives.now) }
{
    match i {
        Instruction::Back { gives: xs } => same_values(xs, gives),
        _ => false,
    }
}
