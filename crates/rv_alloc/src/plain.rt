// Whether two operations with no region in them are the same.

ghost use Rattle.std.specs.Prelude.{◌≡◌, ◌↔◌, IsTrue};
ghost use Rattle.ir_form.specs.declared.plain.Plain.TheVariants as plain;

use ir_form::{Plain, Width};
use rv_isa::{RegisterOp, Service};
use sqlite_items::Items;
use tu_base::{Kind, Line};

pub fn same_values(a: &Items<u32>, b: &Items<u32>) -> bool
    ensures { IsTrue result ↔ (a.now ≡ b.now) }
{
    a.as_slice() == b.as_slice()
}

pub fn same_plain(a: &Plain, b: &Plain) -> bool
    ensures { IsTrue result ↔ (a.now ≡ b.now) }
{
    match a {
        Plain::Constant { to, word } => is_constant(b, *to, *word),
        Plain::Global { to, word } => is_global(b, *to, *word),
        Plain::Heap { to } => is_heap(b, *to),
        Plain::Frame { to, word } => is_frame(b, *to, *word),
        Plain::Text { to, byte } => is_text(b, *to, *byte),
        Plain::Compute {
            to,
            op,
            left,
            right,
        } => is_compute(b, *to, *op, *left, *right),
        Plain::Load { to, width, at } => is_load(b, *to, *width, *at),
        Plain::Store { width, at, from } => is_store(b, *width, *at, *from),
        Plain::Ask { to, service } => is_ask(b, *to, *service),
        Plain::Call {
            routine,
            arguments,
            to,
            line,
        } => is_call(b, *routine, arguments, to, *line),
        Plain::Raise { kind, line } => is_raise(b, *kind, *line),
        Plain::Throw { kind, line } => is_throw(b, *kind, *line),
        Plain::Take { to, words, line } => is_take(b, *to, *words, *line),
        Plain::Give { words } => is_give(b, *words),
    }
}

fn is_constant(p: &Plain, to: u32, word: u32) -> bool
    ensures { IsTrue result ↔ (p.now ≡ plain.Constant to word) }
{
    match p {
        Plain::Constant { to: x, word: y } => *x == to && *y == word,
        _ => false,
    }
}

fn is_global(p: &Plain, to: u32, word: u32) -> bool
    ensures { IsTrue result ↔ (p.now ≡ plain.Global to word) }
{
    match p {
        Plain::Global { to: x, word: y } => *x == to && *y == word,
        _ => false,
    }
}

fn is_heap(p: &Plain, to: u32) -> bool
    ensures { IsTrue result ↔ (p.now ≡ plain.Heap to) }
{
    match p {
        Plain::Heap { to: x } => *x == to,
        _ => false,
    }
}

fn is_frame(p: &Plain, to: u32, word: u64) -> bool
    ensures { IsTrue result ↔ (p.now ≡ plain.Frame to word) }
{
    match p {
        Plain::Frame { to: x, word: y } => *x == to && *y == word,
        _ => false,
    }
}

fn is_text(p: &Plain, to: u32, byte: u32) -> bool
    ensures { IsTrue result ↔ (p.now ≡ plain.Text to byte) }
{
    match p {
        Plain::Text { to: x, byte: y } => *x == to && *y == byte,
        _ => false,
    }
}

fn is_compute(p: &Plain, to: u32, op: RegisterOp, left: u32, right: u32) -> bool
    ensures { IsTrue result ↔ (p.now ≡ plain.Compute to op left right) }
{
    match p {
        Plain::Compute {
            to: x,
            op: o,
            left: y,
            right: z,
        } => *x == to && *o == op && *y == left && *z == right,
        _ => false,
    }
}

fn is_load(p: &Plain, to: u32, width: Width, at: u32) -> bool
    ensures { IsTrue result ↔ (p.now ≡ plain.Load to width at) }
{
    match p {
        Plain::Load {
            to: x,
            width: w,
            at: y,
        } => *x == to && *w == width && *y == at,
        _ => false,
    }
}

fn is_store(p: &Plain, width: Width, at: u32, from: u32) -> bool
    ensures { IsTrue result ↔ (p.now ≡ plain.Store width at from) }
{
    match p {
        Plain::Store {
            width: w,
            at: x,
            from: y,
        } => *w == width && *x == at && *y == from,
        _ => false,
    }
}

fn is_ask(p: &Plain, to: u32, service: Service) -> bool
    ensures { IsTrue result ↔ (p.now ≡ plain.Ask to service) }
{
    match p {
        Plain::Ask { to: x, service: s } => *x == to && *s == service,
        _ => false,
    }
}

fn is_call(p: &Plain, routine: u32, arguments: &Items<u32>, to: &Items<u32>, line: Line) -> bool
    ensures { IsTrue result ↔ (p.now ≡ plain.Call routine arguments.now to.now line) }
{
    match p {
        Plain::Call {
            routine: x,
            arguments: xs,
            to: ys,
            line: y,
        } => *x == routine && *y == line && same_values(xs, arguments) && same_values(ys, to),
        _ => false,
    }
}

fn is_raise(p: &Plain, kind: Kind, line: Line) -> bool
    ensures { IsTrue result ↔ (p.now ≡ plain.Raise kind line) }
{
    match p {
        Plain::Raise { kind: k, line: x } => *k == kind && *x == line,
        _ => false,
    }
}

fn is_throw(p: &Plain, kind: u32, line: u32) -> bool
    ensures { IsTrue result ↔ (p.now ≡ plain.Throw kind line) }
{
    match p {
        Plain::Throw { kind: x, line: y } => *x == kind && *y == line,
        _ => false,
    }
}

fn is_take(p: &Plain, to: u32, words: u32, line: Line) -> bool
    ensures { IsTrue result ↔ (p.now ≡ plain.Take to words line) }
{
    match p {
        Plain::Take {
            to: x,
            words: y,
            line: z,
        } => *x == to && *y == words && *z == line,
        _ => false,
    }
}

fn is_give(p: &Plain, words: u32) -> bool
    ensures { IsTrue result ↔ (p.now ≡ plain.Give words) }
{
    match p {
        Plain::Give { words: x } => *x == words,
        _ => false,
    }
}
