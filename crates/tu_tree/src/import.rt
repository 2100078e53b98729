use sqlite_items::Items;
use std::marker::Model;
use tu_expr::{At, Leaf};

/// The names that a subprogram or module takes from around it.
#[derive(Drop)]
pub struct Import {
    pub at: At,
    pub form: ImportForm,
}

#[derive(Drop)]
pub enum ImportForm {
    /// In brackets.
    Bracketed(Items<ImportItem>),
    Plain(ImportItem, Items<ImportItem>),
}

impl Model for Import {
    ghost use Rattle.grammar.specs.Tree.{n-rule};
    ghost use Rattle.tu_token.specs.Rules.{r-import};
    ghost use Rattle.tu_token.specs.Syntax.{Of, coded_of};

    ghost Value = { Of r-import };

    ghost coded = { coded_of r-import };

    ghost use Rattle.tu_expr.specs.Leaves.{mark};
    ghost use Rattle.tu_tree.specs.ImportViews.{import_view};

    ghost view = { λ s. n-rule (mark s.at) (import_view s.form) };
}

/// An imported name.
#[derive(Drop)]
pub struct ImportItem {
    pub at: At,
    /// Whether it may be changed.
    pub is_var: bool,
    pub name: Leaf,
}

impl Model for ImportItem {
    ghost use Rattle.grammar.specs.Tree.{n-rule};
    ghost use Rattle.tu_token.specs.Rules.{r-imp};
    ghost use Rattle.tu_token.specs.Syntax.{Of, coded_of};

    ghost Value = { Of r-imp };

    ghost coded = { coded_of r-imp };

    ghost use Rattle.tu_expr.specs.Leaves.{mark};
    ghost use Rattle.tu_tree.specs.ImportViews.{import_item_view};

    ghost view = { λ s. n-rule (mark s.at) (import_item_view s.is_var s.name) };
}

/// The names that a module shows around it.
#[derive(Drop)]
pub struct Export {
    pub at: At,
    pub form: ExportForm,
}

#[derive(Drop)]
pub enum ExportForm {
    /// In brackets.
    Bracketed(Items<ExportItem>),
    Plain(ExportItem, Items<ExportItem>),
}

impl Model for Export {
    ghost use Rattle.grammar.specs.Tree.{n-rule};
    ghost use Rattle.tu_token.specs.Rules.{r-export};
    ghost use Rattle.tu_token.specs.Syntax.{Of, coded_of};

    ghost Value = { Of r-export };

    ghost coded = { coded_of r-export };

    ghost use Rattle.tu_expr.specs.Leaves.{mark};
    ghost use Rattle.tu_tree.specs.ImportViews.{export_view};

    ghost view = { λ s. n-rule (mark s.at) (export_view s.form) };
}

/// An exported name.
#[derive(Drop)]
pub struct ExportItem {
    pub at: At,
    /// Whether what it is stays hidden.
    pub is_opaque: bool,
    pub name: Leaf,
}

impl Model for ExportItem {
    ghost use Rattle.grammar.specs.Tree.{n-rule};
    ghost use Rattle.tu_token.specs.Rules.{r-exp};
    ghost use Rattle.tu_token.specs.Syntax.{Of, coded_of};

    ghost Value = { Of r-exp };

    ghost coded = { coded_of r-exp };

    ghost use Rattle.tu_expr.specs.Leaves.{mark};
    ghost use Rattle.tu_tree.specs.ImportViews.{export_item_view};

    ghost view = { λ s. n-rule (mark s.at) (export_item_view s.is_opaque s.name) };
}
