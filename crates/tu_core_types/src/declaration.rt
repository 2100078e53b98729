use crate::{Named, Start};
use sqlite_items::Items;
use std::marker::Model;
use tu_core::{Index, Variable};
use tu_core_expressions::Scalar;

/// What is declared in a block, with the rest of the block as its scope.
#[derive(Drop)]
pub struct Declaration {
    pub form: DeclarationForm,
}

#[derive(Drop)]
pub enum DeclarationForm {
    Constant(Named),
    /// The clause `init` of a subprogram, whose names have its line.
    InitClause(Items<Named>),
    Variables {
        names: Items<Variable>,
        shape: u32,
    },
    Started {
        names: Items<Variable>,
        shape: u32,
        start: Start,
    },
    /// Arrays with run-time bounds, which are evaluated once.
    Arrays {
        names: Items<Variable>,
        indexes: Items<Index>,
        component: u32,
        bounds: Items<Scalar>,
    },
    Collections(Items<u32>),
    /// A type in the scope of a `bind` that names a collection.
    Mention {
        collection: u32,
    },
}

impl Model for Declaration {
    ghost use Rattle.tu_core.specs.Core.{Declaration};
    ghost use Rattle.tu_core_types.specs.StatementCodes.{coded_declaration};

    ghost Value = { Declaration };

    ghost coded = { coded_declaration };

    ghost use Rattle.tu_core_types.specs.StatementViews.{declaration_view};

    ghost view = { λ s. declaration_view s.form };
}
