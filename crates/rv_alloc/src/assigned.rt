// Linear code with places for its values.

ghost use Rattle.std.specs.Prelude.{◌≡◌, slice_get};
ghost use Rattle.std.specs.Option.{option_copied};

use crate::place::Places;
use rv_flat::Linear;
use sqlite_items::Items;

/// Linear code, and for each of its routines the places of the values.
#[derive(Drop)]
pub struct Assigned {
    linear: Linear,
    places: Items<Places>,
}

impl Assigned {
    pub(crate) fn new(linear: Linear, places: Items<Places>) -> Assigned
        ensures linear { result.linear ≡ linear }
        ensures places { result.places ≡ places }
    {
        Assigned { linear, places }
    }

    /// The code.
    pub fn linear(&self) -> &Linear
        ensures { result.now ≡ self.now.linear }
    {
        &self.linear
    }

    /// The places of each routine's values, in the order of the routines.
    pub fn places(&self) -> &[Places]
        ensures { result.now ≡ self.now.places }
    {
        self.places.as_slice()
    }

    /// The places of a routine's values.
    pub fn places_of(&self, routine: usize) -> Option<&Places>
        ensures { option_copied result ≡ slice_get self.now.places routine }
    {
        self.places.get(routine)
    }
}
