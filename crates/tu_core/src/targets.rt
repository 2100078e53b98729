use std::marker::Model;
use tu_base::Span;

/// The numbers of a set's base: so many, from `low` on.
#[derive(Clone, Copy, PartialEq, Eq)]
pub struct Base {
    pub low: i32,
    pub members: u32,
}

impl Model for Base {
    ghost use Rattle.tu_base.specs.Sets.{Base};

    ghost Value = { Base };

    ghost view = { λ b. record { low = b.low; members = b.members } };

    ghost inverse = { λ v. record { low = v.low; members = v.members } };
}

/// An index of an array with run-time bounds.
#[derive(Clone, Copy, PartialEq, Eq)]
pub enum Index {
    /// Its bounds are known.
    Known(Span),
    /// Its upper bound stands at the name.
    Open { low: i32 },
}

/// How long a text may be.
#[derive(Clone, Copy, PartialEq, Eq)]
pub enum Size {
    /// At most so many bytes.
    Most(u32),
    /// As the name of its root says, which is a formal `string (*)`.
    AtName,
}

/// What a place without parts takes.
#[derive(Clone, Copy, PartialEq, Eq)]
pub enum Target {
    TakesScalar(Span),
    TakesText(Size),
    TakesSet(Base),
    TakesPointer { collection: u32 },
}
