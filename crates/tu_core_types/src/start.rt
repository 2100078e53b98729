use sqlite_items::Items;
use std::marker::Model;
use tu_core::{Target, Variable};
use tu_core_expressions::{Path, Simple};

/// What a name begins with.
#[cycle(start)]
#[derive(Drop)]
pub struct Start {
    pub form: StartForm,
}

#[cycle(start)]
#[derive(Drop)]
pub enum StartForm {
    WithValue(Target, Simple),
    /// A copy of a place.
    WithCopy { shape: u32, place: Path },
    /// `init (..)`, with the parts of a shape in their order.
    WithParts { shape: u32, parts: Items<Start> },
}

impl Model for Start {
    ghost use Rattle.tu_core.specs.Core.{Start};
    ghost use Rattle.tu_core_types.specs.StatementCodes.{coded_start};

    ghost Value = { Start };

    ghost coded = { coded_start };

    ghost use Rattle.tu_core_types.specs.StatementViews.{start_view};

    ghost view = { λ s. start_view s.form };

    ghost use Rattle.tu_core_types.specs.StatementHeights.{height_of_start};

    ghost size = { height_of_start };

    ghost use Rattle.tu_core_types.specs.StatementFalls.{start_falls};

    ghost size_decreases = { λ a h. start_falls a };
}

/// A constant with its start.
#[derive(Drop)]
pub struct Named {
    pub name: Variable,
    pub start: Start,
}

impl Model for Named {
    ghost use Rattle.tu_core.specs.Core.{Named};
    ghost use Rattle.tu_core_types.specs.StatementCodes.{coded_named};

    ghost Value = { Named };

    ghost coded = { coded_named };

    ghost view = { λ s. record { name = s.name; start = s.start } };
}
