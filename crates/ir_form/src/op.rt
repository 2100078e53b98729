// Operations and regions.

use crate::plain::Plain;
use rv_isa::Relation;
use sqlite_items::Items;

/// What a `Leave` ends.
#[derive(Clone, Copy, PartialEq, Eq, Debug)]
pub enum Exit {
    /// The routine.
    Routine,
    /// The loop that lies so many loops outside the innermost one.
    Loop(u32),
}

/// Numbers from `low` to `high`, both of them included. There are none where `high` is below `low`.
#[derive(Clone, Copy, PartialEq, Eq, Debug)]
pub struct Range {
    pub low: i32,
    pub high: i32,
}

/// An operation.
#[derive(Drop)]
#[cycle(op)]
pub enum Op {
    Plain(Plain),
    /// Compares two values, and does `yes` where the relation holds and else `no`. `to` takes what
    /// the chosen region gives.
    If {
        relation: Relation,
        left: u32,
        right: u32,
        yes: Region,
        no: Region,
        to: Items<u32>,
    },
    /// Does the first arm that has the signed value in one of its ranges, and else `others`. `to`
    /// takes what the chosen region gives.
    Case {
        value: u32,
        arms: Items<Arm>,
        others: Region,
        to: Items<u32>,
    },
    /// Hands `start` to the first round and what a round gives to the next one, until a `Leave`
    /// ends it. `to` takes what that gives. A marked loop is one of the program, and each round of
    /// it is a turn.
    Loop {
        marked: bool,
        start: Items<u32>,
        body: Region,
        to: Items<u32>,
    },
    /// Does `body`, and where an exception leaves it `handler`, to which the exception's number and
    /// line are handed. What the routine took of the stack since the Guard began is then handed
    /// back. `to` takes what the one or the other gives. An exception of `handler` leaves the Guard.
    /// Guards that lie in one another's bodies have different marks.
    Guard {
        mark: u32,
        body: Region,
        handler: Region,
        to: Items<u32>,
    },
    /// Ends a loop or the routine, and gives it values.
    Leave {
        exit: Exit,
        gives: Items<u32>,
    },
}

/// Operations in order, with the values that are handed to them and those that they give at the end.
#[derive(Drop)]
#[cycle(op)]
pub struct Region {
    pub parameters: Items<u32>,
    pub ops: Items<Op>,
    pub results: Items<u32>,
}

/// An arm of a `Case`.
#[derive(Drop)]
#[cycle(op)]
pub struct Arm {
    pub ranges: Items<Range>,
    pub region: Region,
}
