use crate::{Names, Spec};
use sqlite_items::{Boxed, Items};
use std::marker::Model;
use tu_expr::{At, Expr, Leaf, Path};

/// The declaration of a constant.
#[derive(Drop)]
pub struct Const {
    pub at: At,
    pub name: Leaf,
    pub spec: Option<Spec>,
    pub start: Start,
}

impl Model for Const {
    ghost use Rattle.grammar.specs.Tree.{n-rule};
    ghost use Rattle.tu_token.specs.Rules.{r-const};
    ghost use Rattle.tu_token.specs.Syntax.{Of, coded_of};

    ghost Value = { Of r-const };

    ghost coded = { coded_of r-const };

    ghost use Rattle.tu_expr.specs.Leaves.{mark};
    ghost use Rattle.tu_tree.specs.DeclarationViews.{const_view};

    ghost view = { λ s. n-rule (mark s.at) (const_view s.name s.spec s.start) };
}

/// The declaration of variables or collections.
#[derive(Drop)]
pub struct Var {
    pub at: At,
    pub names: Names,
    pub form: VarForm,
}

#[derive(Drop)]
pub enum VarForm {
    /// Of elements of a type.
    Collection(Spec),
    /// Of a type, with a value to begin with or without.
    Typed(Spec, Option<Start>),
    /// Of the type of a value, with which they begin.
    Started(Boxed<Expr>),
}

impl Model for Var {
    ghost use Rattle.grammar.specs.Tree.{n-rule};
    ghost use Rattle.tu_token.specs.Rules.{r-var};
    ghost use Rattle.tu_token.specs.Syntax.{Of, coded_of};

    ghost Value = { Of r-var };

    ghost coded = { coded_of r-var };

    ghost use Rattle.tu_expr.specs.Leaves.{mark};
    ghost use Rattle.tu_tree.specs.DeclarationViews.{var_view};

    ghost view = { λ s. n-rule (mark s.at) (var_view s.names s.form) };
}

/// The declaration of a type.
#[derive(Drop)]
pub struct TypeDeclaration {
    pub at: At,
    pub name: Leaf,
    pub spec: Spec,
}

impl Model for TypeDeclaration {
    ghost use Rattle.grammar.specs.Tree.{n-rule};
    ghost use Rattle.tu_token.specs.Rules.{r-type};
    ghost use Rattle.tu_token.specs.Syntax.{Of, coded_of};

    ghost Value = { Of r-type };

    ghost coded = { coded_of r-type };

    ghost use Rattle.tu_expr.specs.Leaves.{mark};
    ghost use Rattle.tu_tree.specs.DeclarationViews.{type_view};

    ghost view = { λ s. n-rule (mark s.at) (type_view s.name s.spec) };
}

/// What a variable or a constant begins with.
#[cycle(start)]
#[derive(Drop)]
pub struct Start {
    pub at: At,
    pub form: StartForm,
}

#[cycle(start)]
#[derive(Drop)]
pub enum StartForm {
    Value(Boxed<Expr>),
    /// The values of its parts.
    Init(Boxed<Start>, Items<Start>),
}

impl Model for Start {
    ghost use Rattle.grammar.specs.Tree.{n-rule, height};
    ghost use Rattle.tu_token.specs.Rules.{r-start};
    ghost use Rattle.tu_token.specs.Syntax.{Of, coded_of};

    ghost Value = { Of r-start };

    ghost coded = { coded_of r-start };

    ghost use Rattle.tu_expr.specs.Leaves.{mark};
    ghost use Rattle.tu_tree.specs.DeclarationViews.{start_view};

    ghost view = { λ s. n-rule (mark s.at) (start_view s.form) };

    ghost size = { height };

    ghost use Rattle.tu_tree.specs.Falls.{start_falls};

    ghost size_decreases = { λ a h. start_falls a };
}

/// Names for parts of variables.
#[derive(Drop)]
pub struct Bind {
    pub at: At,
    pub first: Binding,
    pub more: Items<Binding>,
}

impl Model for Bind {
    ghost use Rattle.grammar.specs.Tree.{n-rule};
    ghost use Rattle.tu_token.specs.Rules.{r-bind};
    ghost use Rattle.tu_token.specs.Syntax.{Of, coded_of};

    ghost Value = { Of r-bind };

    ghost coded = { coded_of r-bind };

    ghost use Rattle.tu_expr.specs.Leaves.{mark};
    ghost use Rattle.tu_tree.specs.DeclarationViews.{bind_view};

    ghost view = { λ s. n-rule (mark s.at) (bind_view s.first s.more) };
}

/// A name for a part of a variable.
#[derive(Drop)]
pub struct Binding {
    pub at: At,
    /// Whether the part may be changed by the name.
    pub is_var: bool,
    pub name: Leaf,
    pub path: Path,
}

impl Model for Binding {
    ghost use Rattle.grammar.specs.Tree.{n-rule};
    ghost use Rattle.tu_token.specs.Rules.{r-binding};
    ghost use Rattle.tu_token.specs.Syntax.{Of, coded_of};

    ghost Value = { Of r-binding };

    ghost coded = { coded_of r-binding };

    ghost use Rattle.tu_expr.specs.Leaves.{mark};
    ghost use Rattle.tu_tree.specs.DeclarationViews.{binding_view};

    ghost view = { λ s. n-rule (mark s.at) (binding_view s.is_var s.name s.path) };
}
