use crate::{Arg, At, Leaf, Path};
use sqlite_items::{Boxed, Items};
use std::marker::Model;

/// The relation of a comparison.
#[derive(Clone, Copy, PartialEq, Eq)]
pub enum RelationKind {
    /// `=`
    Equal,
    /// `not=`
    NotEqual,
    /// `<`
    Less,
    /// `>`
    Greater,
    /// `<=`
    LessOrEqual,
    /// `>=`
    GreaterOrEqual,
    /// `in`
    In,
    /// `not in`
    NotIn,
}

/// A sign between terms, or before an operand.
#[derive(Clone, Copy, PartialEq, Eq)]
pub enum Sign {
    /// `+`
    Plus,
    /// `-`
    Minus,
}

/// An operator between factors.
#[derive(Clone, Copy, PartialEq, Eq)]
pub enum Multiplication {
    /// `*`
    Times,
    /// `div`
    Div,
    /// `mod`
    Mod,
}

/// A relation between two sums.
#[derive(Drop)]
pub struct Relation {
    pub at: At,
    pub kind: RelationKind,
}

impl Model for Relation {
    ghost use Rattle.grammar.specs.Tree.{n-rule, height};
    ghost use Rattle.tu_token.specs.Rules.{r-relation};
    ghost use Rattle.tu_token.specs.Syntax.{Of, coded_of};

    ghost Value = { Of r-relation };

    ghost coded = { coded_of r-relation };

    ghost use Rattle.tu_expr.specs.Leaves.{mark};
    ghost use Rattle.tu_expr.specs.Views.{relation_view};

    ghost view = { λ s. n-rule (mark s.at) (relation_view s.kind) };
}

/// Sides of `=>`, grouped to the left.
#[cycle(expr)]
#[derive(Drop)]
pub struct Expr {
    pub at: At,
    pub first: Or,
    pub more: Items<Or>,
}

impl Model for Expr {
    ghost use Rattle.grammar.specs.Tree.{n-rule, height};
    ghost use Rattle.tu_token.specs.Rules.{r-expr};
    ghost use Rattle.tu_token.specs.Syntax.{Of, coded_of};

    ghost Value = { Of r-expr };

    ghost coded = { coded_of r-expr };

    ghost use Rattle.tu_expr.specs.Leaves.{mark};
    ghost use Rattle.tu_expr.specs.Views.{expr_view};

    ghost view = { λ s. n-rule (mark s.at) (expr_view s.first s.more) };

    ghost size = { height };

    ghost use Rattle.tu_expr.specs.Falls.{expr_falls};

    ghost size_decreases = { λ a h. expr_falls a };
}

/// Sides of `or`, grouped to the left.
#[cycle(expr)]
#[derive(Drop)]
pub struct Or {
    pub at: At,
    pub first: And,
    pub more: Items<And>,
}

impl Model for Or {
    ghost use Rattle.grammar.specs.Tree.{n-rule, height};
    ghost use Rattle.tu_token.specs.Rules.{r-or};
    ghost use Rattle.tu_token.specs.Syntax.{Of, coded_of};

    ghost Value = { Of r-or };

    ghost coded = { coded_of r-or };

    ghost use Rattle.tu_expr.specs.Leaves.{mark};
    ghost use Rattle.tu_expr.specs.Views.{or_view};

    ghost view = { λ s. n-rule (mark s.at) (or_view s.first s.more) };

    ghost size = { height };

    ghost use Rattle.tu_expr.specs.Falls.{or_falls};

    ghost size_decreases = { λ a h. or_falls a };
}

/// Sides of `and`, grouped to the left.
#[cycle(expr)]
#[derive(Drop)]
pub struct And {
    pub at: At,
    pub first: Not,
    pub more: Items<Not>,
}

impl Model for And {
    ghost use Rattle.grammar.specs.Tree.{n-rule, height};
    ghost use Rattle.tu_token.specs.Rules.{r-and};
    ghost use Rattle.tu_token.specs.Syntax.{Of, coded_of};

    ghost Value = { Of r-and };

    ghost coded = { coded_of r-and };

    ghost use Rattle.tu_expr.specs.Leaves.{mark};
    ghost use Rattle.tu_expr.specs.Views.{and_view};

    ghost view = { λ s. n-rule (mark s.at) (and_view s.first s.more) };

    ghost size = { height };

    ghost use Rattle.tu_expr.specs.Falls.{and_falls};

    ghost size_decreases = { λ a h. and_falls a };
}

/// A comparison behind some `not`.
#[cycle(expr)]
#[derive(Drop)]
pub struct Not {
    pub at: At,
    pub nots: u32,
    pub compare: Compare,
}

impl Model for Not {
    ghost use Rattle.grammar.specs.Tree.{n-rule, height};
    ghost use Rattle.tu_token.specs.Rules.{r-not};
    ghost use Rattle.tu_token.specs.Syntax.{Of, coded_of};

    ghost Value = { Of r-not };

    ghost coded = { coded_of r-not };

    ghost use Rattle.tu_expr.specs.Leaves.{mark};
    ghost use Rattle.tu_expr.specs.Views.{not_view};

    ghost view = { λ s. n-rule (mark s.at) (not_view s.nots s.compare) };

    ghost size = { height };

    ghost use Rattle.tu_expr.specs.Falls.{not_falls};

    ghost size_decreases = { λ a h. not_falls a };
}

/// Sums with relations between them, grouped to the left.
#[cycle(expr)]
#[derive(Drop)]
pub struct Compare {
    pub at: At,
    pub first: Sum,
    pub more: Items<(Relation, Sum)>,
}

impl Model for Compare {
    ghost use Rattle.grammar.specs.Tree.{n-rule, height};
    ghost use Rattle.tu_token.specs.Rules.{r-compare};
    ghost use Rattle.tu_token.specs.Syntax.{Of, coded_of};

    ghost Value = { Of r-compare };

    ghost coded = { coded_of r-compare };

    ghost use Rattle.tu_expr.specs.Leaves.{mark};
    ghost use Rattle.tu_expr.specs.Views.{compare_view};

    ghost view = { λ s. n-rule (mark s.at) (compare_view s.first s.more) };

    ghost size = { height };

    ghost use Rattle.tu_expr.specs.Falls.{compare_falls};

    ghost size_decreases = { λ a h. compare_falls a };
}

/// Terms with signs between them, grouped to the left.
#[cycle(expr)]
#[derive(Drop)]
pub struct Sum {
    pub at: At,
    pub first: Term,
    pub more: Items<(Sign, Term)>,
}

impl Model for Sum {
    ghost use Rattle.grammar.specs.Tree.{n-rule, height};
    ghost use Rattle.tu_token.specs.Rules.{r-sum};
    ghost use Rattle.tu_token.specs.Syntax.{Of, coded_of};

    ghost Value = { Of r-sum };

    ghost coded = { coded_of r-sum };

    ghost use Rattle.tu_expr.specs.Leaves.{mark};
    ghost use Rattle.tu_expr.specs.Views.{sum_view};

    ghost view = { λ s. n-rule (mark s.at) (sum_view s.first s.more) };

    ghost size = { height };

    ghost use Rattle.tu_expr.specs.Falls.{sum_falls};

    ghost size_decreases = { λ a h. sum_falls a };
}

/// Factors with operators between them, grouped to the left.
#[cycle(expr)]
#[derive(Drop)]
pub struct Term {
    pub at: At,
    pub first: Prefix,
    pub more: Items<(Multiplication, Prefix)>,
}

impl Model for Term {
    ghost use Rattle.grammar.specs.Tree.{n-rule, height};
    ghost use Rattle.tu_token.specs.Rules.{r-term};
    ghost use Rattle.tu_token.specs.Syntax.{Of, coded_of};

    ghost Value = { Of r-term };

    ghost coded = { coded_of r-term };

    ghost use Rattle.tu_expr.specs.Leaves.{mark};
    ghost use Rattle.tu_expr.specs.Views.{term_view};

    ghost view = { λ s. n-rule (mark s.at) (term_view s.first s.more) };

    ghost size = { height };

    ghost use Rattle.tu_expr.specs.Falls.{term_falls};

    ghost size_decreases = { λ a h. term_falls a };
}

/// A power behind some signs.
#[cycle(expr)]
#[derive(Drop)]
pub struct Prefix {
    pub at: At,
    pub signs: Items<Sign>,
    pub power: Power,
}

impl Model for Prefix {
    ghost use Rattle.grammar.specs.Tree.{n-rule, height};
    ghost use Rattle.tu_token.specs.Rules.{r-prefix};
    ghost use Rattle.tu_token.specs.Syntax.{Of, coded_of};

    ghost Value = { Of r-prefix };

    ghost coded = { coded_of r-prefix };

    ghost use Rattle.tu_expr.specs.Leaves.{mark};
    ghost use Rattle.tu_expr.specs.Views.{prefix_view};

    ghost view = { λ s. n-rule (mark s.at) (prefix_view s.signs s.power) };

    ghost size = { height };

    ghost use Rattle.tu_expr.specs.Falls.{prefix_falls};

    ghost size_decreases = { λ a h. prefix_falls a };
}

/// Sides of `**`, grouped to the left.
#[cycle(expr)]
#[derive(Drop)]
pub struct Power {
    pub at: At,
    pub first: Primary,
    pub more: Items<Primary>,
}

impl Model for Power {
    ghost use Rattle.grammar.specs.Tree.{n-rule, height};
    ghost use Rattle.tu_token.specs.Rules.{r-power};
    ghost use Rattle.tu_token.specs.Syntax.{Of, coded_of};

    ghost Value = { Of r-power };

    ghost coded = { coded_of r-power };

    ghost use Rattle.tu_expr.specs.Leaves.{mark};
    ghost use Rattle.tu_expr.specs.Views.{power_view};

    ghost view = { λ s. n-rule (mark s.at) (power_view s.first s.more) };

    ghost size = { height };

    ghost use Rattle.tu_expr.specs.Falls.{power_falls};

    ghost size_decreases = { λ a h. power_falls a };
}

/// What stands between operators.
#[cycle(expr)]
#[derive(Drop)]
pub struct Primary {
    pub at: At,
    pub form: PrimaryForm,
}

#[cycle(expr)]
#[derive(Drop)]
pub enum PrimaryForm {
    Number(Leaf),
    True,
    False,
    Path(Path),
    Brackets(Boxed<Expr>),
    /// A text, with bracketed parts behind it.
    Text(Leaf, Items<Arg>),
    /// `nil` of a collection.
    Nil(Path),
}

impl Model for Primary {
    ghost use Rattle.grammar.specs.Tree.{n-rule, height};
    ghost use Rattle.tu_token.specs.Rules.{r-primary};
    ghost use Rattle.tu_token.specs.Syntax.{Of, coded_of};

    ghost Value = { Of r-primary };

    ghost coded = { coded_of r-primary };

    ghost use Rattle.tu_expr.specs.Leaves.{mark};
    ghost use Rattle.tu_expr.specs.Views.{primary_view};

    ghost view = { λ s. n-rule (mark s.at) (primary_view s.form) };

    ghost size = { height };

    ghost use Rattle.tu_expr.specs.Falls.{primary_falls};

    ghost size_decreases = { λ a h. primary_falls a };
}
