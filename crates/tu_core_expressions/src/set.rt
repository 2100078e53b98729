use crate::{Call, Path, Scalar};
use sqlite_items::{Boxed, Items};
use std::marker::Model;
use tu_base::Combination;
use tu_core::Base;

/// A set over a base.
#[cycle(expression)]
#[derive(Drop)]
pub struct Set {
    pub node: u32,
    pub form: SetForm,
}

#[cycle(expression)]
#[derive(Drop)]
pub enum SetForm {
    /// `S (a, b)`
    SetOf(Base, Items<Scalar>),
    /// `S (all)`
    FullSet(Base),
    UseSet(Path),
    /// `+`, `*` and `-`, from the left.
    Combined(Base, Boxed<Set>, Items<SetLink>),
    CallSet(Call),
}

/// An operator and its right operand.
#[cycle(expression)]
#[derive(Drop)]
pub struct SetLink {
    pub operator: Combination,
    pub set: Set,
}

impl Model for Set {
    ghost use Rattle.tu_core.specs.Core.{Set};
    ghost use Rattle.tu_core_expressions.specs.ExpressionCodes.{coded_set};

    ghost Value = { Set };

    ghost coded = { coded_set };

    ghost use Rattle.tu_core_expressions.specs.ExpressionViews.{set_view};

    ghost view = { λ s. set_view s.node s.form };

    ghost use Rattle.tu_core_expressions.specs.ExpressionHeights.{height_of_set};

    ghost size = { height_of_set };

    ghost use Rattle.tu_core_expressions.specs.ExpressionFalls.{set_falls};

    ghost size_decreases = { λ a h. set_falls a };
}
