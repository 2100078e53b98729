use crate::{At, Expr, Leaf, Term};
use sqlite_items::Items;
use std::marker::Model;

/// A name, and how its value is chosen from or called.
#[cycle(expr)]
#[derive(Drop)]
pub struct Path {
    pub at: At,
    pub root: Leaf,
    pub steps: Items<Step>,
}

#[cycle(expr)]
#[derive(Drop)]
pub enum Step {
    /// A name behind a dot.
    Field(Leaf),
    /// What stands in brackets.
    Arguments(Items<Arg>),
}

impl Model for Path {
    ghost use Rattle.grammar.specs.Tree.{n-rule, height};
    ghost use Rattle.tu_token.specs.Rules.{r-path};
    ghost use Rattle.tu_token.specs.Syntax.{Of, coded_of};

    ghost Value = { Of r-path };

    ghost coded = { coded_of r-path };

    ghost use Rattle.tu_expr.specs.Leaves.{mark};
    ghost use Rattle.tu_expr.specs.Views.{path_view};

    ghost view = { λ s. n-rule (mark s.at) (path_view s.root s.steps) };

    ghost size = { height };

    ghost use Rattle.tu_expr.specs.Falls.{path_falls};

    ghost size_decreases = { λ a h. path_falls a };
}

/// An argument, a subscript, or the bounds of a part.
#[cycle(expr)]
#[derive(Drop)]
pub struct Arg {
    pub at: At,
    pub form: ArgForm,
}

#[cycle(expr)]
#[derive(Drop)]
pub enum ArgForm {
    One(Place),
    /// From one place to another.
    Part(Place, Place),
    /// `all`
    All,
}

impl Model for Arg {
    ghost use Rattle.grammar.specs.Tree.{n-rule, height};
    ghost use Rattle.tu_token.specs.Rules.{r-arg};
    ghost use Rattle.tu_token.specs.Syntax.{Of, coded_of};

    ghost Value = { Of r-arg };

    ghost coded = { coded_of r-arg };

    ghost use Rattle.tu_expr.specs.Leaves.{mark};
    ghost use Rattle.tu_expr.specs.Views.{arg_view};

    ghost view = { λ s. n-rule (mark s.at) (arg_view s.form) };

    ghost size = { height };

    ghost use Rattle.tu_expr.specs.Falls.{arg_falls};

    ghost size_decreases = { λ a h. arg_falls a };
}

/// A value, or a place that is counted from the end of a string.
#[cycle(expr)]
#[derive(Drop)]
pub struct Place {
    pub at: At,
    pub form: PlaceForm,
}

#[cycle(expr)]
#[derive(Drop)]
pub enum PlaceForm {
    Value(Expr),
    /// `*`
    Length,
    /// The length less a term.
    LengthLess(Term),
}

impl Model for Place {
    ghost use Rattle.grammar.specs.Tree.{n-rule, height};
    ghost use Rattle.tu_token.specs.Rules.{r-place};
    ghost use Rattle.tu_token.specs.Syntax.{Of, coded_of};

    ghost Value = { Of r-place };

    ghost coded = { coded_of r-place };

    ghost use Rattle.tu_expr.specs.Leaves.{mark};
    ghost use Rattle.tu_expr.specs.Views.{place_view};

    ghost view = { λ s. n-rule (mark s.at) (place_view s.form) };

    ghost size = { height };

    ghost use Rattle.tu_expr.specs.Falls.{place_falls};

    ghost size_decreases = { λ a h. place_falls a };
}
