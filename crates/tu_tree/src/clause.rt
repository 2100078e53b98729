use sqlite_items::{Boxed, Items};
use std::marker::Model;
use tu_expr::{At, Expr, Leaf, Spot};

/// What holds where a subprogram begins.
#[derive(Drop)]
pub struct Pre {
    pub spot: Spot,
    pub condition: Boxed<Expr>,
}

impl Model for Pre {
    ghost use Rattle.grammar.specs.Tree.{n-rule};
    ghost use Rattle.tu_token.specs.Rules.{r-pre};
    ghost use Rattle.tu_token.specs.Syntax.{Of, coded_of};

    ghost Value = { Of r-pre };

    ghost coded = { coded_of r-pre };

    ghost use Rattle.tu_expr.specs.Leaves.{spot_mark};
    ghost use Rattle.tu_tree.specs.ClauseViews.{pre_view};

    ghost view = { λ s. n-rule (spot_mark s.spot) (pre_view s.condition) };
}

/// What holds where a subprogram ends.
#[derive(Drop)]
pub struct Post {
    pub spot: Spot,
    pub condition: Boxed<Expr>,
}

impl Model for Post {
    ghost use Rattle.grammar.specs.Tree.{n-rule};
    ghost use Rattle.tu_token.specs.Rules.{r-post};
    ghost use Rattle.tu_token.specs.Syntax.{Of, coded_of};

    ghost Value = { Of r-post };

    ghost coded = { coded_of r-post };

    ghost use Rattle.tu_expr.specs.Leaves.{spot_mark};
    ghost use Rattle.tu_tree.specs.ClauseViews.{post_view};

    ghost view = { λ s. n-rule (spot_mark s.spot) (post_view s.condition) };
}

/// What holds at each turn of a loop, or around each call of a module's subprograms.
#[derive(Drop)]
pub struct Invariant {
    pub spot: Spot,
    pub condition: Boxed<Expr>,
}

impl Model for Invariant {
    ghost use Rattle.grammar.specs.Tree.{n-rule};
    ghost use Rattle.tu_token.specs.Rules.{r-invariant};
    ghost use Rattle.tu_token.specs.Syntax.{Of, coded_of};

    ghost Value = { Of r-invariant };

    ghost coded = { coded_of r-invariant };

    ghost use Rattle.tu_expr.specs.Leaves.{spot_mark};
    ghost use Rattle.tu_tree.specs.ClauseViews.{invariant_view};

    ghost view = { λ s. n-rule (spot_mark s.spot) (invariant_view s.condition) };
}

/// Names for values that a subprogram begins with.
#[derive(Drop)]
pub struct Givens {
    pub spot: Spot,
    pub first: Given,
    pub more: Items<Given>,
}

impl Model for Givens {
    ghost use Rattle.grammar.specs.Tree.{n-rule};
    ghost use Rattle.tu_token.specs.Rules.{r-givens};
    ghost use Rattle.tu_token.specs.Syntax.{Of, coded_of};

    ghost Value = { Of r-givens };

    ghost coded = { coded_of r-givens };

    ghost use Rattle.tu_expr.specs.Leaves.{spot_mark};
    ghost use Rattle.tu_tree.specs.ClauseViews.{givens_view};

    ghost view = { λ s. n-rule (spot_mark s.spot) (givens_view s.first s.more) };
}

/// A name for a value.
#[derive(Drop)]
pub struct Given {
    pub at: At,
    pub name: Leaf,
    pub value: Boxed<Expr>,
}

impl Model for Given {
    ghost use Rattle.grammar.specs.Tree.{n-rule};
    ghost use Rattle.tu_token.specs.Rules.{r-given};
    ghost use Rattle.tu_token.specs.Syntax.{Of, coded_of};

    ghost Value = { Of r-given };

    ghost coded = { coded_of r-given };

    ghost use Rattle.tu_expr.specs.Leaves.{mark};
    ghost use Rattle.tu_tree.specs.ClauseViews.{given_view};

    ghost view = { λ s. n-rule (mark s.at) (given_view s.name s.value) };
}

/// The `end` of a subprogram or module, with its name.
#[derive(Drop)]
pub struct Ending {
    pub spot: Spot,
    pub name: Leaf,
}

impl Model for Ending {
    ghost use Rattle.grammar.specs.Tree.{n-rule};
    ghost use Rattle.tu_token.specs.Rules.{r-ending};
    ghost use Rattle.tu_token.specs.Syntax.{Of, coded_of};

    ghost Value = { Of r-ending };

    ghost coded = { coded_of r-ending };

    ghost use Rattle.tu_expr.specs.Leaves.{spot_mark};
    ghost use Rattle.tu_tree.specs.ClauseViews.{ending_view};

    ghost view = { λ s. n-rule (spot_mark s.spot) (ending_view s.name) };
}
