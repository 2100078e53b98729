//! The operators and predefined functions on numbers, by their names.

/// How two values are compared.
#[derive(Clone, Copy, PartialEq, Eq)]
pub enum Relation {
    Equal,
    NotEqual,
    Less,
    Greater,
    LessOrEqual,
    GreaterOrEqual,
}

/// An operator, or a predefined function, of one number.
#[derive(Clone, Copy, PartialEq, Eq)]
pub enum Unary {
    /// Prefix `+`.
    Plus,
    /// Prefix `-`.
    Minus,
    Not,
    Absolute,
    /// `succ` and `pred` of an int.
    Successor,
    Predecessor,
    /// `succ` and `pred` of an enumeration whose last value has this place.
    Next { last: u32 },
    Previous { last: u32 },
}

/// An operator, or a predefined function, of two numbers that are both evaluated.
#[derive(Clone, Copy, PartialEq, Eq)]
pub enum Binary {
    Add,
    Subtract,
    Multiply,
    Divide,
    Modulo,
    Power,
    Least,
    Greatest,
    Compare(Relation),
}

/// An operator of two truth values that looks at the right one only where the left one does not
/// decide.
#[derive(Clone, Copy, PartialEq, Eq)]
pub enum Junction {
    And,
    Or,
    Implies,
}

/// An operator of two sets over one base.
#[derive(Clone, Copy, PartialEq, Eq)]
pub enum Combination {
    Union,
    Intersection,
    Difference,
}
