use crate::{Call, Pointer, Scalar};
use sqlite_items::{Boxed, Items};
use std::marker::Model;
use tu_core::{At, Index, Variable};

/// A place: its root, and selectors from left to right.
#[cycle(expression)]
#[derive(Drop)]
pub struct Path {
    pub at: At,
    pub root: Root,
    pub steps: Items<Selector>,
}

#[cycle(expression)]
#[derive(Drop)]
pub enum Root {
    Name(Variable),
    /// An element of an array with run-time bounds.
    OpenItem {
        name: Variable,
        indexes: Items<Index>,
        subscripts: Items<Subscript>,
    },
    /// The element of a collection that a pointer names.
    Element {
        collection: u32,
        pointer: Boxed<Pointer>,
    },
    /// The structured result of a call, in a temporary of the text by its number.
    ResultOf {
        number: u32,
        call: Call,
    },
}

/// Each with the shape that it selects from.
#[cycle(expression)]
#[derive(Drop)]
pub enum Selector {
    /// A component of a record, by its number, or 0, the tag of a union.
    Field {
        shape: u32,
        component: u32,
    },
    /// A component of a union, from 1 on.
    VariantField {
        shape: u32,
        component: u32,
    },
    Item {
        shape: u32,
        subscripts: Items<Subscript>,
    },
}

/// A subscript, with its value where it is a constant expression.
#[cycle(expression)]
#[derive(Drop)]
pub struct Subscript {
    pub constant: Option<i32>,
    pub index: Scalar,
}

impl Model for Path {
    ghost use Rattle.tu_core.specs.Core.{Path};
    ghost use Rattle.tu_core_expressions.specs.ExpressionCodes.{coded_path};

    ghost Value = { Path };

    ghost coded = { coded_path };

    ghost use Rattle.tu_core_expressions.specs.ExpressionViews.{path_view};

    ghost view = { λ s. path_view s.at s.root s.steps };

    ghost use Rattle.tu_core_expressions.specs.ExpressionHeights.{height_of_path};

    ghost size = { height_of_path };

    ghost use Rattle.tu_core_expressions.specs.ExpressionFalls.{path_falls};

    ghost size_decreases = { λ a h. path_falls a };
}
