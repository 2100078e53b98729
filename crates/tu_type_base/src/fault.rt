use tu_base::Line;

/// What is wrong with a form, in the order in which faults at one place are told.
#[derive(Clone, Copy, PartialEq, Eq)]
pub enum FaultKind {
    /// A form that may not stand where it stands.
    Misplaced,
    /// A part whose type its form does not take.
    Mismatch,
    /// A bound, size or label that is no constant expression, or that would raise an exception.
    NotConstant,
    /// A bound, size or label outside its limits.
    OutOfRange,
    /// A changed place that is no variable.
    NotVariable,
    /// A wrong number of parts.
    BadCount,
    /// A type, the globals, a list of formals or the main program past a limit.
    TooLarge,
}

/// A fault: the start and line of the first token that has it.
#[derive(Clone, Copy, PartialEq, Eq)]
pub struct Fault {
    pub kind: FaultKind,
    pub start: u32,
    pub line: Line,
}
