use sqlite_items::{Boxed, Items};
use std::marker::Model;
use tu_expr::{At, Expr, Leaf, Spot};

/// A name, or that of a module's name.
#[derive(Drop)]
pub struct Name {
    pub at: At,
    pub first: Leaf,
    /// Behind a dot.
    pub second: Option<Leaf>,
}

impl Model for Name {
    ghost use Rattle.grammar.specs.Tree.{n-rule};
    ghost use Rattle.tu_token.specs.Rules.{r-name};
    ghost use Rattle.tu_token.specs.Syntax.{Of, coded_of};

    ghost Value = { Of r-name };

    ghost coded = { coded_of r-name };

    ghost use Rattle.tu_expr.specs.Leaves.{mark};
    ghost use Rattle.tu_tree.specs.TypeViews.{name_view};

    ghost view = { λ s. n-rule (mark s.at) (name_view s.first s.second) };
}

/// Names with commas between.
#[derive(Drop)]
pub struct Names {
    pub at: At,
    pub first: Leaf,
    pub more: Items<Leaf>,
}

impl Model for Names {
    ghost use Rattle.grammar.specs.Tree.{n-rule};
    ghost use Rattle.tu_token.specs.Rules.{r-names};
    ghost use Rattle.tu_token.specs.Syntax.{Of, coded_of};

    ghost Value = { Of r-names };

    ghost coded = { coded_of r-names };

    ghost use Rattle.tu_expr.specs.Leaves.{mark};
    ghost use Rattle.tu_tree.specs.TypeViews.{names_view};

    ghost view = { λ s. n-rule (mark s.at) (names_view s.first s.more) };
}

/// The values from one to another, or those of a named type.
#[derive(Drop)]
pub struct Range {
    pub at: At,
    pub form: RangeForm,
}

#[derive(Drop)]
pub enum RangeForm {
    /// From one value to another.
    Bounds(Boxed<Expr>, Boxed<Expr>),
    Named(Name),
}

impl Model for Range {
    ghost use Rattle.grammar.specs.Tree.{n-rule};
    ghost use Rattle.tu_token.specs.Rules.{r-range};
    ghost use Rattle.tu_token.specs.Syntax.{Of, coded_of};

    ghost Value = { Of r-range };

    ghost coded = { coded_of r-range };

    ghost use Rattle.tu_expr.specs.Leaves.{mark};
    ghost use Rattle.tu_tree.specs.TypeViews.{range_view};

    ghost view = { λ s. n-rule (mark s.at) (range_view s.form) };
}

/// The subscripts of one dimension.
#[derive(Drop)]
pub struct Index {
    pub at: At,
    pub form: IndexForm,
}

#[derive(Drop)]
pub enum IndexForm {
    /// From one subscript to another.
    Bounds(Boxed<Expr>, Boxed<Expr>),
    /// From a subscript on, up to what the actual parameter has; the place of the `*`.
    Open(Boxed<Expr>, Spot),
    Named(Name),
}

impl Model for Index {
    ghost use Rattle.grammar.specs.Tree.{n-rule};
    ghost use Rattle.tu_token.specs.Rules.{r-index};
    ghost use Rattle.tu_token.specs.Syntax.{Of, coded_of};

    ghost Value = { Of r-index };

    ghost coded = { coded_of r-index };

    ghost use Rattle.tu_expr.specs.Leaves.{mark};
    ghost use Rattle.tu_tree.specs.TypeViews.{index_view};

    ghost view = { λ s. n-rule (mark s.at) (index_view s.form) };
}

/// A type: arrays of arrays of a base.
#[cycle(spec)]
#[derive(Drop)]
pub struct Spec {
    pub at: At,
    pub arrays: Items<Array>,
    pub base: Base,
}

/// The dimensions of an array.
#[derive(Drop)]
pub struct Array {
    pub first: Index,
    pub more: Items<Index>,
}

impl Model for Spec {
    ghost use Rattle.grammar.specs.Tree.{n-rule, height};
    ghost use Rattle.tu_token.specs.Rules.{r-spec};
    ghost use Rattle.tu_token.specs.Syntax.{Of, coded_of};

    ghost Value = { Of r-spec };

    ghost coded = { coded_of r-spec };

    ghost use Rattle.tu_expr.specs.Leaves.{mark};
    ghost use Rattle.tu_tree.specs.TypeViews.{spec_view};

    ghost view = { λ s. n-rule (mark s.at) (spec_view s.arrays s.base) };

    ghost size = { height };

    ghost use Rattle.tu_tree.specs.Falls.{spec_falls};

    ghost size_decreases = { λ a h. spec_falls a };
}

/// A type that is no array.
#[cycle(spec)]
#[derive(Drop)]
pub struct Base {
    pub at: At,
    pub form: BaseForm,
}

#[cycle(spec)]
#[derive(Drop)]
pub enum BaseForm {
    Int,
    Boolean,
    /// `string`, with the greatest length, or the place of a `*`.
    String(StringSize),
    Range(Range),
    Enum(Names),
    Set(Range),
    /// To the elements of a collection.
    Pointer(Name),
    Record(Boxed<Field>, Items<Field>),
    Union {
        tag: Option<Leaf>,
        range: Range,
        variants: Items<Variant>,
    },
}

/// What stands in brackets behind `string`.
#[derive(Drop)]
pub enum StringSize {
    /// Nothing: the greatest length is 255.
    Whole,
    /// The greatest length.
    Most(Boxed<Expr>),
    /// That of the actual parameter; the place of the `*`.
    Open(Spot),
}

impl Model for Base {
    ghost use Rattle.grammar.specs.Tree.{n-rule, height};
    ghost use Rattle.tu_token.specs.Rules.{r-base};
    ghost use Rattle.tu_token.specs.Syntax.{Of, coded_of};

    ghost Value = { Of r-base };

    ghost coded = { coded_of r-base };

    ghost use Rattle.tu_expr.specs.Leaves.{mark};
    ghost use Rattle.tu_tree.specs.TypeViews.{base_view};

    ghost view = { λ s. n-rule (mark s.at) (base_view s.form) };

    ghost size = { height };

    ghost use Rattle.tu_tree.specs.Falls.{base_falls};

    ghost size_decreases = { λ a h. base_falls a };
}

/// Fields of one type.
#[cycle(spec)]
#[derive(Drop)]
pub struct Field {
    pub at: At,
    pub names: Names,
    pub spec: Spec,
    /// Whether a semicolon follows.
    pub semicolon: bool,
}

impl Model for Field {
    ghost use Rattle.grammar.specs.Tree.{n-rule, height};
    ghost use Rattle.tu_token.specs.Rules.{r-field};
    ghost use Rattle.tu_token.specs.Syntax.{Of, coded_of};

    ghost Value = { Of r-field };

    ghost coded = { coded_of r-field };

    ghost use Rattle.tu_expr.specs.Leaves.{mark};
    ghost use Rattle.tu_tree.specs.TypeViews.{field_view};

    ghost view = { λ s. n-rule (mark s.at) (field_view s.names s.spec s.semicolon) };

    ghost size = { height };

    ghost use Rattle.tu_tree.specs.Falls.{field_falls};

    ghost size_decreases = { λ a h. field_falls a };
}

/// The fields that a union has under some labels, or under all others.
#[cycle(spec)]
#[derive(Drop)]
pub struct Variant {
    pub at: At,
    pub labels: Items<Expr>,
    pub fields: Items<Field>,
}

impl Model for Variant {
    ghost use Rattle.grammar.specs.Tree.{n-rule, height};
    ghost use Rattle.tu_token.specs.Rules.{r-variant};
    ghost use Rattle.tu_token.specs.Syntax.{Of, coded_of};

    ghost Value = { Of r-variant };

    ghost coded = { coded_of r-variant };

    ghost use Rattle.tu_expr.specs.Leaves.{mark};
    ghost use Rattle.tu_tree.specs.TypeViews.{variant_view};

    ghost view = { λ s. n-rule (mark s.at) (variant_view s.labels s.fields) };

    ghost size = { height };

    ghost use Rattle.tu_tree.specs.Falls.{variant_falls};

    ghost size_decreases = { λ a h. variant_falls a };
}
