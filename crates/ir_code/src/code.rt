ghost use Rattle.std.specs.Prelude.{◌≡◌, ◌+◌, ◌<◌, [], IfOk, OnOk};
ghost use Rattle.ir_code.specs.Pieces.{ask, call, choice, compute, constant, defining, frame, global, leave, load, once, raise, raise_unless, repeat, store, with_op};

use ir_form::{Exit, Op, Plain, Region, Width};
use rv_isa::{RegisterOp, Relation, Service};
use sqlite_items::Items;
use std::alloc::Global;
use tu_base::{Kind, Line, Memory};

/// Operations in their order, and the number of the next value.
#[derive(Drop)]
pub struct Code {
    pub ops: Items<Op>,
    pub next: u32,
}

// A region that takes no values and gives none.
fn region(alloc: Global, ops: Items<Op>) -> Region
    ensures { result ≡ record { parameters = []; ops = ops; results = [] } }
{
    Region {
        parameters: Items::new(alloc),
        ops,
        results: Items::new(alloc),
    }
}

/// An exception.
pub fn raise(kind: Kind, line: Line) -> Op
    ensures { result ≡ raise kind line }
{
    Op::Plain(Plain::Raise { kind, line })
}

/// The end of the loop that lies so many loops outside the innermost one.
pub fn leave(alloc: Global, outside: u32) -> Op
    ensures { result ≡ leave outside }
{
    Op::Leave {
        exit: Exit::Loop(outside),
        gives: Items::new(alloc),
    }
}

/// The first operations where the relation holds between two values, and else the others.
pub fn choice(
    alloc: Global,
    relation: Relation,
    left: u32,
    right: u32,
    first: Items<Op>,
    others: Items<Op>,
) -> Op
    ensures { result ≡ choice relation left right first others }
{
    Op::If {
        relation,
        left,
        right,
        yes: region(alloc, first),
        no: region(alloc, others),
        to: Items::new(alloc),
    }
}

/// The rounds of a loop of the program.
pub fn repeat(alloc: Global, ops: Items<Op>) -> Op
    ensures { result ≡ repeat ops }
{
    Op::Loop {
        marked: true,
        start: Items::new(alloc),
        body: region(alloc, ops),
        to: Items::new(alloc),
    }
}

/// Operations that are done once, where the last of them leaves them.
pub fn once(alloc: Global, ops: Items<Op>) -> Op
    ensures { result ≡ once ops }
{
    Op::Loop {
        marked: false,
        start: Items::new(alloc),
        body: region(alloc, ops),
        to: Items::new(alloc),
    }
}

impl Code {
    /// No operations yet.
    pub fn new(alloc: Global, next: u32) -> Self
        ensures { result ≡ record { ops = []; next = next } }
    {
        Code {
            ops: Items::new(alloc),
            next,
        }
    }

    /// Appends an operation that defines no value.
    pub fn push(&mut self, op: Op) -> Result<(), Memory>
        ensures { OnOk result (self.new ≡ with_op self.old op) }
    {
        self.ops.push(op)?;
        Ok(())
    }

    // Appends an operation that defines the next value.
    fn define(&mut self, op: Op) -> Result<u32, Memory>
        requires { self.old.next < 4294967295 }
        ensures code { OnOk result (self.new ≡ defining self.old (λ _. op)) }
        ensures value { IfOk result (λ value. value ≡ self.old.next) }
    {
        let to = self.next;
        self.ops.push(op)?;
        self.next = to + 1;
        Ok(to)
    }

    /// A word as it is written.
    pub fn constant(&mut self, word: u32) -> Result<u32, Memory>
        requires { self.old.next < 4294967295 }
        ensures code { OnOk result (self.new ≡ defining self.old (λ to. constant to word)) }
        ensures value { IfOk result (λ value. value ≡ self.old.next) }
    {
        let to = self.next;
        self.define(Op::Plain(Plain::Constant { to, word }))
    }

    /// The address of a word of the globals.
    pub fn global(&mut self, word: u32) -> Result<u32, Memory>
        requires { self.old.next < 4294967295 }
        ensures code { OnOk result (self.new ≡ defining self.old (λ to. global to word)) }
        ensures value { IfOk result (λ value. value ≡ self.old.next) }
    {
        let to = self.next;
        self.define(Op::Plain(Plain::Global { to, word }))
    }

    /// The address of a word of the frame.
    pub fn frame(&mut self, word: u64) -> Result<u32, Memory>
        requires { self.old.next < 4294967295 }
        ensures code { OnOk result (self.new ≡ defining self.old (λ to. frame to word)) }
        ensures value { IfOk result (λ value. value ≡ self.old.next) }
    {
        let to = self.next;
        self.define(Op::Plain(Plain::Frame { to, word }))
    }

    /// What an operation of the machine gives on two values.
    pub fn compute(&mut self, op: RegisterOp, left: u32, right: u32) -> Result<u32, Memory>
        requires { self.old.next < 4294967295 }
        ensures code { OnOk result (self.new ≡ defining self.old (λ to. compute to op left right)) }
        ensures value { IfOk result (λ value. value ≡ self.old.next) }
    {
        let to = self.next;
        self.define(Op::Plain(Plain::Compute {
            to,
            op,
            left,
            right,
        }))
    }

    /// What stands in memory at an address.
    pub fn load(&mut self, width: Width, at: u32) -> Result<u32, Memory>
        requires { self.old.next < 4294967295 }
        ensures code { OnOk result (self.new ≡ defining self.old (λ to. load to width at)) }
        ensures value { IfOk result (λ value. value ≡ self.old.next) }
    {
        let to = self.next;
        self.define(Op::Plain(Plain::Load { to, width, at }))
    }

    /// The reply to a service.
    pub fn ask(&mut self, service: Service) -> Result<u32, Memory>
        requires { self.old.next < 4294967295 }
        ensures code { OnOk result (self.new ≡ defining self.old (λ to. ask to service)) }
        ensures value { IfOk result (λ value. value ≡ self.old.next) }
    {
        let to = self.next;
        self.define(Op::Plain(Plain::Ask { to, service }))
    }

    /// Puts a value at an address.
    pub fn store(&mut self, width: Width, at: u32, from: u32) -> Result<(), Memory>
        ensures { OnOk result (self.new ≡ with_op self.old (store width at from)) }
    {
        self.push(Op::Plain(Plain::Store { width, at, from }))
    }

    /// An exception where a relation does not hold between two values.
    pub fn raise_unless(
        &mut self,
        alloc: Global,
        relation: Relation,
        left: u32,
        right: u32,
        kind: Kind,
        line: Line,
    ) -> Result<(), Memory>
        ensures { OnOk result (self.new ≡ with_op self.old (raise_unless relation left right kind line)) }
    {
        let mut others = Items::new(alloc);
        others.push(raise(kind, line))?;
        self.push(choice(alloc, relation, left, right, Items::new(alloc), others))
    }

    /// A call of a routine, which gives no values.
    pub fn call(
        &mut self,
        alloc: Global,
        routine: u32,
        arguments: &[u32],
        line: Line,
    ) -> Result<(), Memory>
        ensures { OnOk result (self.new ≡ with_op self.old (call routine arguments.now line)) }
    {
        let arguments = Items::from_slice(alloc, arguments)?;
        self.push(Op::Plain(Plain::Call {
            routine,
            arguments,
            to: Items::new(alloc),
            line,
        }))
    }
}
