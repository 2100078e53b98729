use crate::{Call, Path, Scalar};
use sqlite_items::{Boxed, Items};
use std::marker::Model;
use tu_base::Bytes;

/// A value of bytes.
#[cycle(expression)]
#[derive(Drop)]
pub struct Text {
    pub node: u32,
    pub form: TextForm,
}

#[cycle(expression)]
#[derive(Drop)]
pub enum TextForm {
    Written(Bytes),
    UseText(Path),
    /// `+`, from the left.
    Joined(Boxed<Text>, Items<Text>),
    /// `s (i)` and `s (i .. j)`, one behind the other.
    Cut(Boxed<Text>, Items<Cut>),
    /// `chr`
    Character(Boxed<Scalar>),
    /// `intstr` without and with a width.
    IntText {
        number: Boxed<Scalar>,
        width: Option<Boxed<Scalar>>,
    },
    Repeat(Boxed<Text>, Boxed<Scalar>),
    CallText(Call),
}

/// A part of a text.
#[cycle(expression)]
#[derive(Drop)]
pub enum Cut {
    CutCharacter(Spot),
    CutPart { first: Spot, last: Spot },
}

impl Model for Text {
    ghost use Rattle.tu_core.specs.Core.{Text};
    ghost use Rattle.tu_core_expressions.specs.ExpressionCodes.{coded_text};

    ghost Value = { Text };

    ghost coded = { coded_text };

    ghost use Rattle.tu_core_expressions.specs.ExpressionViews.{text_view};

    ghost view = { λ s. text_view s.node s.form };

    ghost use Rattle.tu_core_expressions.specs.ExpressionHeights.{height_of_text};

    ghost size = { height_of_text };

    ghost use Rattle.tu_core_expressions.specs.ExpressionFalls.{text_falls};

    ghost size_decreases = { λ a h. text_falls a };
}

/// A place in a text.
#[cycle(expression)]
#[derive(Drop)]
pub struct Spot {
    pub form: SpotForm,
}

#[cycle(expression)]
#[derive(Drop)]
pub enum SpotForm {
    Exactly(Boxed<Scalar>),
    /// `*`
    Last,
    /// `* - e`
    BeforeLast(Boxed<Scalar>),
}

impl Model for Spot {
    ghost use Rattle.tu_core.specs.Core.{Spot};
    ghost use Rattle.tu_core_expressions.specs.ExpressionCodes.{coded_spot};

    ghost Value = { Spot };

    ghost coded = { coded_spot };

    ghost use Rattle.tu_core_expressions.specs.ExpressionViews.{spot_view};

    ghost view = { λ s. spot_view s.form };

    ghost use Rattle.tu_core_expressions.specs.ExpressionHeights.{height_of_spot};

    ghost size = { height_of_spot };

    ghost use Rattle.tu_core_expressions.specs.ExpressionFalls.{spot_falls};

    ghost size_decreases = { λ a h. spot_falls a };
}
