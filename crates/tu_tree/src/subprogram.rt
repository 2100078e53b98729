use crate::{Block, Ending, Givens, Import, Names, Post, Pre, Spec};
use sqlite_items::Items;
use std::marker::Model;
use tu_expr::{At, Leaf, Spot};

/// A procedure or function, or its head or body alone.
#[derive(Drop)]
pub struct Subprogram {
    pub at: At,
    pub form: SubprogramForm,
}

#[derive(Drop)]
pub enum SubprogramForm {
    /// The head alone.
    Forward(Head, Option<Import>),
    Whole(Head, Option<Import>, Rest),
    /// The body alone.
    Body(SubprogramKind, Leaf, Rest),
}

#[derive(Clone, Copy, PartialEq, Eq)]
pub enum SubprogramKind {
    Procedure,
    Function,
}

impl Model for Subprogram {
    ghost use Rattle.grammar.specs.Tree.{n-rule};
    ghost use Rattle.tu_token.specs.Rules.{r-subprogram};
    ghost use Rattle.tu_token.specs.Syntax.{Of, coded_of};

    ghost Value = { Of r-subprogram };

    ghost coded = { coded_of r-subprogram };

    ghost use Rattle.tu_expr.specs.Leaves.{mark};
    ghost use Rattle.tu_tree.specs.SubprogramViews.{subprogram_view};

    ghost view = { λ s. n-rule (mark s.at) (subprogram_view s.form) };
}

/// The name and parameters of a subprogram.
#[derive(Drop)]
pub struct Head {
    pub at: At,
    pub form: HeadForm,
}

#[derive(Drop)]
pub enum HeadForm {
    Procedure(Leaf, Option<Formals>),
    Function {
        name: Leaf,
        formals: Option<Formals>,
        /// The name of the result.
        result: Option<Leaf>,
        spec: Spec,
    },
}

impl Model for Head {
    ghost use Rattle.grammar.specs.Tree.{n-rule};
    ghost use Rattle.tu_token.specs.Rules.{r-head};
    ghost use Rattle.tu_token.specs.Syntax.{Of, coded_of};

    ghost Value = { Of r-head };

    ghost coded = { coded_of r-head };

    ghost use Rattle.tu_expr.specs.Leaves.{mark};
    ghost use Rattle.tu_tree.specs.SubprogramViews.{head_view};

    ghost view = { λ s. n-rule (mark s.at) (head_view s.form) };
}

/// The parameters of a subprogram.
#[derive(Drop)]
pub struct Formals {
    pub at: At,
    pub items: Items<Formal>,
}

impl Model for Formals {
    ghost use Rattle.grammar.specs.Tree.{n-rule};
    ghost use Rattle.tu_token.specs.Rules.{r-formals};
    ghost use Rattle.tu_token.specs.Syntax.{Of, coded_of};

    ghost Value = { Of r-formals };

    ghost coded = { coded_of r-formals };

    ghost use Rattle.tu_expr.specs.Leaves.{mark};
    ghost use Rattle.tu_tree.specs.SubprogramViews.{formals_view};

    ghost view = { λ s. n-rule (mark s.at) (formals_view s.items) };
}

/// Parameters of one type.
#[derive(Drop)]
pub struct Formal {
    pub at: At,
    /// Whether they may be changed.
    pub is_var: bool,
    pub names: Names,
    pub spec: Spec,
}

impl Model for Formal {
    ghost use Rattle.grammar.specs.Tree.{n-rule};
    ghost use Rattle.tu_token.specs.Rules.{r-formal};
    ghost use Rattle.tu_token.specs.Syntax.{Of, coded_of};

    ghost Value = { Of r-formal };

    ghost coded = { coded_of r-formal };

    ghost use Rattle.tu_expr.specs.Leaves.{mark};
    ghost use Rattle.tu_tree.specs.SubprogramViews.{formal_view};

    ghost view = { λ s. n-rule (mark s.at) (formal_view s.is_var s.names s.spec) };
}

/// What a subprogram does with an exception of its body; the place of its `handler`.
#[derive(Drop)]
pub struct Handler {
    pub spot: Spot,
    /// The constant that holds the number of the exception.
    pub name: Leaf,
    pub block: Block,
}

impl Model for Handler {
    ghost use Rattle.grammar.specs.Tree.{n-rule};
    ghost use Rattle.tu_token.specs.Rules.{r-handler};
    ghost use Rattle.tu_token.specs.Syntax.{Of, coded_of};

    ghost Value = { Of r-handler };

    ghost coded = { coded_of r-handler };

    ghost use Rattle.tu_expr.specs.Leaves.{spot_mark};
    ghost use Rattle.tu_tree.specs.SubprogramViews.{handler_view};

    ghost view = { λ s. n-rule (spot_mark s.spot) (handler_view s.name s.block) };
}

/// The clauses, the handler and the body of a subprogram.
#[derive(Drop)]
pub struct Rest {
    pub at: At,
    pub pre: Option<Pre>,
    pub givens: Option<Givens>,
    pub post: Option<Post>,
    pub handler: Option<Handler>,
    pub block: Block,
    pub ending: Ending,
}

impl Model for Rest {
    ghost use Rattle.grammar.specs.Tree.{n-rule};
    ghost use Rattle.tu_token.specs.Rules.{r-rest};
    ghost use Rattle.tu_token.specs.Syntax.{Of, coded_of};

    ghost Value = { Of r-rest };

    ghost coded = { coded_of r-rest };

    ghost use Rattle.tu_expr.specs.Leaves.{mark};
    ghost use Rattle.tu_tree.specs.SubprogramViews.{rest_view};

    ghost view = { λ s. n-rule (mark s.at) (rest_view s.pre s.givens s.post s.handler s.block s.ending) };
}
