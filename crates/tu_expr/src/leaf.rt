use tu_base::{Bytes, Line};

/// A node's number, and the place of its first token.
#[derive(Clone, Copy, PartialEq, Eq)]
pub struct At {
    /// Counted from 0, in the order of the first tokens.
    pub number: u32,
    /// The place of the first byte in the source, counted from 0.
    pub start: u32,
    /// Counted from 1.
    pub line: Line,
}

/// The place of the first token of a part that has no number.
#[derive(Clone, Copy, PartialEq, Eq)]
pub struct Spot {
    /// The place of the first byte in the source, counted from 0.
    pub start: u32,
    /// Counted from 1.
    pub line: Line,
}

/// A name or a literal.
#[derive(Drop)]
pub struct Leaf {
    /// Its bytes, as they stand in the source.
    pub text: Bytes,
    /// The place of its first byte in the source, counted from 0.
    pub start: u32,
    /// Its line, counted from 1.
    pub line: Line,
}
