//! Types as a program knows them while it runs. They stand in one list, and each names only ones
//! that stand before it, by their numbers. So a type that is used twice stands once, and a list is
//! no longer than the text, where a type that is written out in full could be exponential in it.

use sqlite_items::Items;

/// The numbers from `low` to `high`, both of them included. There are none where `high` is below
/// `low`.
#[derive(Clone, Copy, PartialEq, Eq)]
pub struct Span {
    pub low: i32,
    pub high: i32,
}

/// The fields that a union has while its tag is one of these labels; without labels, while it is
/// any that no other variant has.
#[derive(Drop)]
pub struct Variant {
    pub labels: Items<i32>,
    /// The numbers of their shapes.
    pub fields: Items<u32>,
}

/// What a variable can hold.
#[derive(Drop)]
pub enum Shape {
    /// An int, a truth value as 0 or 1, or an enumeration value by its place from 0: a number of
    /// the span.
    Scalar(Span),
    /// At most so many bytes.
    Text {
        most: u32,
    },
    /// For each of so many numbers, from `low` on, whether it is a member.
    Set {
        low: i32,
        members: u32,
    },
    /// An element of a collection, or none.
    Pointer {
        collection: u32,
    },
    /// Components of one shape, the last index running fastest.
    Array {
        indexes: Items<Span>,
        component: u32,
    },
    /// The numbers of the shapes of its fields.
    Record {
        fields: Items<u32>,
    },
    /// A tag with its shape, and the fields of a variant.
    Union {
        tag: u32,
        variants: Items<Variant>,
    },
}
