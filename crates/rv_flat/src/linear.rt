// Linear code: a list of instructions over numbered values and labels.

use ir_form::{Plain, Range};
use rv_isa::Relation;
use sqlite_items::Items;
use tu_base::Bytes;

/// An instruction. Values and labels go by number, and each routine numbers its own.
#[derive(Drop)]
pub enum Instruction {
    Plain(Plain),
    /// Goes to the handler where the operation raises an exception, which is taken there.
    Guarded {
        plain: Plain,
        handler: Handler,
    },
    /// A Guard begins. Its mark keeps how many words the activation has taken.
    Open {
        mark: u32,
    },
    /// Goes to the label unless the relation holds.
    Branch {
        relation: Relation,
        left: u32,
        right: u32,
        label: u64,
    },
    /// Goes to the label where the range has the signed value.
    Within {
        value: u32,
        range: Range,
        label: u64,
    },
    /// Hands values on, all at once: `to` takes what `from` has.
    Hand {
        to: Items<u32>,
        from: Items<u32>,
    },
    Jump {
        label: u64,
    },
    /// A place to go to. With the mark, a turn begins there.
    Label {
        label: u64,
        marked: bool,
    },
    /// Ends the routine, and gives values.
    Back {
        gives: Items<u32>,
    },
}

/// A routine.
#[derive(Drop)]
pub struct LinearRoutine {
    pub parameters: Items<u32>,
    pub code: Items<Instruction>,
    /// How many words of the stack a call of it takes.
    pub room: u64,
    /// How many words of its room are its memory.
    pub words: u64,
    /// 0 for a routine whose calls are turns, and 1 to 8 for one of the run time.
    pub depth: u32,
}

/// A whole program.
#[derive(Drop)]
pub struct Linear {
    /// How many words of globals there are.
    pub globals: u32,
    /// The place of the main program among the routines.
    pub main: u32,
    pub routines: Items<LinearRoutine>,
    /// The bytes of the literals.
    pub texts: Bytes,
}

/// What takes an exception: the label of the handler, the mark of its Guard, and the values that
/// take the exception's number and line.
#[derive(Drop)]
pub struct Handler {
    pub label: u64,
    pub mark: u32,
    pub to: Items<u32>,
}

/// A loop that can be left: the label behind it, and the values that it defines.
#[derive(Drop)]
pub struct Target {
    pub label: u64,
    pub to: Items<u32>,
}
