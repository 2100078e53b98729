use crate::{Index, Target};
use sqlite_items::Items;
use tu_base::{Line, Span};

/// Where the first token of a form stands. Of `nil (C)`, of an element `C (p)` and of a type that
/// names C it is the token of C.
#[derive(Clone, Copy, PartialEq, Eq)]
pub struct At {
    /// The place of its first byte in the source, counted from 0.
    pub start: u32,
    /// Counted from 1.
    pub line: Line,
}

/// A name by its number. Of a subprogram the formals come first among the locals; of the main
/// program only `for` indices and names of `bind` are locals. Two names have two numbers, also
/// where one hides the other.
#[derive(Clone, Copy, PartialEq, Eq)]
pub enum Variable {
    /// A name of the program or of its modules.
    Global(u32),
    /// A name of the text that runs.
    Local(u32),
}

/// What a global is.
#[derive(Drop)]
pub enum GlobalName {
    GlobalOf {
        shape: u32,
    },
    /// An array with run-time bounds.
    GlobalArray {
        indexes: Items<Index>,
        component: u32,
    },
}

/// What a local that is no formal is.
#[derive(Drop)]
pub enum LocalName {
    Declared {
        shape: u32,
    },
    /// An array with run-time bounds.
    DeclaredArray {
        indexes: Items<Index>,
        component: u32,
    },
    /// A name of `bind`, of a place of a shape.
    BoundName {
        shape: u32,
    },
    /// A name of `bind`, of a text whose size stands at the name.
    BoundText,
    /// A name of `bind`, of an array with run-time bounds.
    BoundArray {
        indexes: Items<Index>,
        component: u32,
    },
    /// An index of `for`, with the values of its type.
    Counter(Span),
    /// The name of a handler.
    Caught,
    /// The result's name in `post`.
    ResultName,
}

/// What a place that is lent may be.
#[derive(Drop)]
pub enum PlaceKind {
    OfShape {
        shape: u32,
    },
    /// A text of any size, which stands at the name.
    AnyText,
    /// An array whose open bounds stand at the name.
    AnyArray {
        indexes: Items<Index>,
        component: u32,
    },
}

/// How a formal receives its actual.
#[derive(Drop)]
pub enum Formal {
    /// A value without parts.
    ByValue(Target),
    /// A copy of a place with parts.
    ByCopy(PlaceKind),
    /// The place itself, with the start and line of its `var`.
    ByVar(At, PlaceKind),
}

/// What a call gives.
#[derive(Clone, Copy, PartialEq, Eq)]
pub enum CallResult {
    Nothing,
    /// A value without parts.
    OneValue(Target),
    /// A place of a shape.
    OnePlace { shape: u32 },
}
