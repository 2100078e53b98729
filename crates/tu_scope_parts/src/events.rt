// Events one after the other.
ghost use Rattle.std.specs.Prelude.{◌≡◌, [], ◌∷◌, OnOk};
ghost use Rattle.tu_scope_parts.specs.Adds.{Extends};

use std::alloc::Global;
use std::marker::Model;
use tu_base::Memory;
use tu_scope_rules::{Event, Visibility};

/// A list of events, in the order of a text.
#[derive(Drop)]
pub struct Events<'a> {
    items: Vec<Event<'a>>,
}

impl<'a> Model for Events<'a> {
    ghost use Rattle.std.specs.Prelude.{List};
    ghost use Rattle.tu_scope_rules.specs.declared.event.Event.{Event};

    ghost Value = { List Event };

    ghost view = { λ e. e.items.items };
}

impl<'a> Events<'a> {
    /// None.
    pub fn new(alloc: Global) -> Self
        ensures { result ≡ [] }
    {
        Events {
            items: Vec::new(alloc),
        }
    }

    pub fn push(&mut self, event: Event<'a>) -> Result<(), Memory>
        ensures { OnOk result (Extends (event.entry ∷ []) self.old self.new) }
    {
        self.items.push(event)?;
        Ok(())
    }

    pub fn as_slice(&self) -> &[Event<'a>]
        ensures { result.now ≡ self.now }
    {
        self.items.as_slice()
    }

    /// A scope begins that sees all around it.
    pub fn open(&mut self, number: u32) -> Result<(), Memory>
        ensures { OnOk result (Extends (Event.Open number Visibility.All ∷ []) self.old self.new) }
    {
        self.push(Event::Open(number, Visibility::All))
    }

    /// A scope ends.
    pub fn close(&mut self) -> Result<(), Memory>
        ensures { OnOk result (Extends (Event.Close ∷ []) self.old self.new) }
    {
        self.push(Event::Close)
    }
}
