use sqlite_items::Items;
use std::marker::Model;
use tu_core::{At, Variable};
use tu_core_expressions::{Actual, Path};
use tu_core_types::Named;

/// What a path begins with: a variable, or a collection, of which each element is a part.
#[derive(Clone, Copy, PartialEq, Eq)]
pub enum Subject {
    AVariable(Variable),
    ACollection(u32),
}

/// What a text does at a place. An extent is a number of acts that follow.
#[derive(Drop)]
pub enum ActForm<'a> {
    Reading(At, Subject),
    Changing(At, Subject),
    /// A collection in `nil (C)` or in a type.
    Naming(At, Subject),
    /// Of input or output.
    Talking(At),
    /// Behind the acts of its actuals.
    Calling {
        at: At,
        callee: u32,
        invariant: Option<u32>,
        actuals: &'a [Actual],
    },
    /// A `bind`, behind the acts of its path, with the extent of its scope.
    Binding {
        at: At,
        name: u32,
        is_var: bool,
        place: &'a Path,
        extent: usize,
    },
    /// A variable that a declaration unsets, or the index of a `for`, or the name of a handler.
    Declaring(At, Variable),
    /// A constant that gets its value.
    Defining(At, &'a Named),
    /// These may be read and not changed.
    Fixing {
        variables: &'a Items<Variable>,
        collections: &'a Items<u32>,
        extent: usize,
    },
}

#[derive(Drop)]
pub struct Act<'a> {
    pub form: ActForm<'a>,
}

impl<'a> Model for Act<'a> {
    ghost use Rattle.tu_core.specs.Acts.{Act};
    ghost use Rattle.tu_acts.specs.ActCodes.{coded_act};

    ghost Value = { Act };

    ghost coded = { coded_act };

    ghost use Rattle.tu_acts.specs.ActViews.{act_view};

    ghost view = { λ a. act_view a.form };
}
