use crate::{Call, Path};
use std::marker::Model;
use tu_core::At;

/// An element of a collection, or none.
#[cycle(expression)]
#[derive(Drop)]
pub struct Pointer {
    pub node: u32,
    pub form: PointerForm,
}

#[cycle(expression)]
#[derive(Drop)]
pub enum PointerForm {
    Nil { at: At, collection: u32 },
    UsePointer(Path),
    CallPointer(Call),
}

impl Model for Pointer {
    ghost use Rattle.tu_core.specs.Core.{Pointer};
    ghost use Rattle.tu_core_expressions.specs.ExpressionCodes.{coded_pointer};

    ghost Value = { Pointer };

    ghost coded = { coded_pointer };

    ghost use Rattle.tu_core_expressions.specs.ExpressionViews.{pointer_view};

    ghost view = { λ s. pointer_view s.node s.form };

    ghost use Rattle.tu_core_expressions.specs.ExpressionHeights.{height_of_pointer};

    ghost size = { height_of_pointer };

    ghost use Rattle.tu_core_expressions.specs.ExpressionFalls.{pointer_falls};

    ghost size_decreases = { λ a h. pointer_falls a };
}
