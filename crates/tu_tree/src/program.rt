use crate::{
    Const, Ending, Export, Import, Invariant, Statement, Subprogram, TypeDeclaration, Var,
};
use sqlite_items::{Boxed, Items};
use std::marker::Model;
use tu_expr::{At, Leaf};

/// A program: its items, each with whether a semicolon follows.
pub struct Tree {
    pub at: At,
    pub items: Items<(Item, bool)>,
}

// Written, so that a crate that drops a tree calls this, and does not prove anew how each part is dropped.
impl Drop for Tree {
    fn drop(self) {
        let Tree { at: _, items: _ } = self;
    }
}

impl Model for Tree {
    ghost use Rattle.grammar.specs.Tree.{n-rule};
    ghost use Rattle.tu_token.specs.Rules.{r-program};
    ghost use Rattle.tu_token.specs.Syntax.{Of, coded_of};

    ghost Value = { Of r-program };

    ghost coded = { coded_of r-program };

    ghost use Rattle.tu_expr.specs.Leaves.{mark};
    ghost use Rattle.tu_tree.specs.ProgramViews.{program_view};

    ghost view = { λ s. n-rule (mark s.at) (program_view s.items) };
}

/// A declaration, module or statement of a program.
#[derive(Drop)]
pub struct Item {
    pub at: At,
    pub form: ItemForm,
}

#[derive(Drop)]
pub enum ItemForm {
    Const(Const),
    Var(Var),
    Type(TypeDeclaration),
    Subprogram(Boxed<Subprogram>),
    Module(Boxed<Module>),
    Statement(Statement),
}

impl Model for Item {
    ghost use Rattle.grammar.specs.Tree.{n-rule};
    ghost use Rattle.tu_token.specs.Rules.{r-item};
    ghost use Rattle.tu_token.specs.Syntax.{Of, coded_of};

    ghost Value = { Of r-item };

    ghost coded = { coded_of r-item };

    ghost use Rattle.tu_expr.specs.Leaves.{mark};
    ghost use Rattle.tu_tree.specs.ProgramViews.{item_view};

    ghost view = { λ s. n-rule (mark s.at) (item_view s.form) };
}

/// A module: its parts, each with whether a semicolon follows.
#[derive(Drop)]
pub struct Module {
    pub at: At,
    pub name: Leaf,
    pub import: Option<Import>,
    pub export: Option<Export>,
    pub parts: Items<(ModulePart, bool)>,
    pub ending: Ending,
}

#[derive(Drop)]
pub enum ModulePart {
    Const(Const),
    Var(Var),
    Type(TypeDeclaration),
    Subprogram(Boxed<Subprogram>),
    Statement(Statement),
    Invariant(Invariant),
}

impl Model for Module {
    ghost use Rattle.grammar.specs.Tree.{n-rule};
    ghost use Rattle.tu_token.specs.Rules.{r-module};
    ghost use Rattle.tu_token.specs.Syntax.{Of, coded_of};

    ghost Value = { Of r-module };

    ghost coded = { coded_of r-module };

    ghost use Rattle.tu_expr.specs.Leaves.{mark};
    ghost use Rattle.tu_tree.specs.ProgramViews.{module_view};

    ghost view = { λ s. n-rule (mark s.at) (module_view s.name s.import s.export s.parts s.ending) };
}
