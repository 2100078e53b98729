/// What is open at a place of a source: a bracket, or a construct by the word that began it.
#[derive(Clone, Copy, Debug, PartialEq, Eq)]
pub enum Construct {
    Bracket,
    If,
    Loop,
    For,
    Case,
    Record,
    Union,
    Begin,
    Module,
    Handler,
    Subprogram,
}

/// What a token does to the constructs that are open.
#[derive(Clone, Copy, Debug, PartialEq, Eq)]
pub enum Role {
    /// It opens one.
    Opens(Construct),
    /// It closes a bracket.
    Closes,
    /// It ends a construct that a word began.
    Ends,
    /// A subprogram's word directly after it opens none.
    Forwards,
    /// It opens and closes none.
    Plain,
}

/// The token before, as far as it decides what the next one opens.
#[derive(Clone, Copy, Debug, PartialEq, Eq)]
pub enum Before {
    /// `forward`.
    Forward,
    /// An `end` that ended this construct.
    End(Construct),
    /// Any other token, or none.
    Other,
}
