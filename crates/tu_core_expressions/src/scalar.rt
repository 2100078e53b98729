use crate::{Call, Path, Pointer, Set, Text};
use sqlite_items::{Boxed, Items};
use std::marker::Model;
use tu_base::{Binary, Junction, Relation, Unary};
use tu_core::{At, Base, Index};

/// An int, a truth value or an enumeration value.
#[cycle(expression)]
#[derive(Drop)]
pub struct Scalar {
    pub node: u32,
    pub form: ScalarForm,
}

#[cycle(expression)]
#[derive(Drop)]
pub enum ScalarForm {
    Literal(i32),
    Use(Path),
    /// Prefix operators and functions of one number, of which the last one is applied first.
    Prefixed(Items<Unary>, Boxed<Scalar>),
    /// Operators of one level, from the left.
    Chain(Boxed<Scalar>, Items<Link>),
    CompareTexts(Relation, Boxed<Text>, Boxed<Text>),
    CompareSets(Relation, Base, Boxed<Set>, Boxed<Set>),
    /// `=`, and `not=` where `is_equal` is false.
    ComparePointers {
        is_equal: bool,
        left: Boxed<Pointer>,
        right: Boxed<Pointer>,
    },
    /// `in`, and `not in` where `is_wanted` is false.
    Member {
        is_wanted: bool,
        base: Base,
        element: Boxed<Scalar>,
        set: Boxed<Set>,
    },
    Length(Boxed<Text>),
    /// `index`
    PlaceIn(Boxed<Text>, Boxed<Text>),
    /// `ord` of a text.
    ByteOf(Boxed<Text>),
    /// `strint`
    TextInt(Boxed<Text>),
    /// `lower` and `upper` of an array at a path, of the first dimension or of one by its number.
    Bound {
        is_upper: bool,
        indexes: Items<Index>,
        place: Path,
        dimension: Option<Boxed<Scalar>>,
    },
    /// `eof` of the console, or of a stream.
    AtEnd {
        at: At,
        stream: Option<Boxed<Scalar>>,
    },
    CallScalar(Call),
}

/// An operator and its right operand.
#[cycle(expression)]
#[derive(Drop)]
pub enum Link {
    Operate(Binary, Scalar),
    /// The right operand is looked at only where the left one does not decide.
    Decide(Junction, Scalar),
}

impl Model for Scalar {
    ghost use Rattle.tu_core.specs.Core.{Scalar};
    ghost use Rattle.tu_core_expressions.specs.ExpressionCodes.{coded_scalar};

    ghost Value = { Scalar };

    ghost coded = { coded_scalar };

    ghost use Rattle.tu_core_expressions.specs.ExpressionViews.{scalar_view};

    ghost view = { λ s. scalar_view s.node s.form };

    ghost use Rattle.tu_core_expressions.specs.ExpressionHeights.{height_of_scalar};

    ghost size = { height_of_scalar };

    ghost use Rattle.tu_core_expressions.specs.ExpressionFalls.{scalar_falls};

    ghost size_decreases = { λ a h. scalar_falls a };
}
