ghost use Rattle.std.specs.Prelude.{◌≡◌, [], ◌∷◌, length, OnOk};
ghost use Rattle.tu_acts.specs.ActViews.{act_view};

use crate::{Act, ActForm};
use sqlite_items::Items;
use std::alloc::Global;
use std::marker::Model;
use tu_base::Memory;

/// Acts, which are added at the front. So the extent of a scope is known as it is met, since a text
/// is gone through from its end.
#[derive(Drop)]
pub struct ActList<'a> {
    reversed: Vec<Act<'a>>,
}

impl<'a> Model for ActList<'a> {
    ghost use Rattle.std.specs.Prelude.{List, reverse};
    ghost use Rattle.std.specs.Coded.{coded_list};
    ghost use Rattle.tu_core.specs.Acts.{Act};
    ghost use Rattle.tu_acts.specs.ActCodes.{coded_act};

    ghost Value = { List Act };

    ghost coded = { coded_list coded_act };

    ghost view = { λ l. reverse l.reversed.items };
}

impl<'a> ActList<'a> {
    pub fn new(alloc: Global) -> Self
        ensures { result ≡ [] }
    {
        ActList {
            reversed: Vec::new(alloc),
        }
    }

    pub fn add(&mut self, form: ActForm<'a>) -> Result<(), Memory>
        ensures { OnOk result (self.new ≡ act_view form.entry ∷ self.old) }
    {
        self.reversed.push(Act { form })?;
        Ok(())
    }

    pub fn len(&self) -> usize
        ensures { result ≡ length self.now }
    {
        self.reversed.len()
    }

    /// The acts in the order of the text.
    pub fn into_items(self) -> Items<Act<'a>>
        ensures { result ≡ self.entry }
    {
        let ActList { mut reversed } = self;
        reversed.reverse();
        Items::from_vec(reversed)
    }
}
