use crate::{Path, Pointer, Scalar, Set, Text};
use sqlite_items::Items;
use std::marker::Model;
use tu_core::At;

/// A call, with the module whose invariant is called before and after, by the number of that
/// routine.
#[cycle(expression)]
#[derive(Drop)]
pub struct Call {
    pub at: At,
    pub callee: u32,
    pub invariant: Option<u32>,
    pub actuals: Items<Actual>,
}

#[cycle(expression)]
#[derive(Drop)]
pub enum Actual {
    /// A value without parts, with the size that it has for a formal `string (*)`.
    Given {
        at: At,
        size: Option<u32>,
        value: Simple,
    },
    /// A place: a structured constant actual, or a `var` actual. The upper bounds or the size that
    /// it has for an open formal are known, or those at the name of its root.
    Lent {
        at: At,
        is_var: bool,
        bounds: Option<Items<i32>>,
        place: Path,
    },
}

impl Model for Call {
    ghost use Rattle.tu_core.specs.Core.{Call};
    ghost use Rattle.tu_core_expressions.specs.ExpressionCodes.{coded_call};

    ghost Value = { Call };

    ghost coded = { coded_call };

    ghost use Rattle.tu_core_expressions.specs.ExpressionViews.{call_view};

    ghost view = { λ s. call_view s.at s.callee s.invariant s.actuals };

    ghost use Rattle.tu_core_expressions.specs.ExpressionHeights.{height_of_call};

    ghost size = { height_of_call };

    ghost use Rattle.tu_core_expressions.specs.ExpressionFalls.{call_falls};

    ghost size_decreases = { λ a h. call_falls a };
}

/// An expression of any sort.
#[cycle(expression)]
#[derive(Drop)]
pub struct Simple {
    pub form: SimpleForm,
}

#[cycle(expression)]
#[derive(Drop)]
pub enum SimpleForm {
    AScalar(Scalar),
    AText(Text),
    ASet(Set),
    APointer(Pointer),
}

impl Model for Simple {
    ghost use Rattle.tu_core.specs.Core.{Simple};
    ghost use Rattle.tu_core_expressions.specs.ExpressionCodes.{coded_simple};

    ghost Value = { Simple };

    ghost coded = { coded_simple };

    ghost use Rattle.tu_core_expressions.specs.ExpressionViews.{simple_view};

    ghost view = { λ s. simple_view s.form };

    ghost use Rattle.tu_core_expressions.specs.ExpressionHeights.{height_of_simple};

    ghost size = { height_of_simple };

    ghost use Rattle.tu_core_expressions.specs.ExpressionFalls.{simple_falls};

    ghost size_decreases = { λ a h. simple_falls a };
}
