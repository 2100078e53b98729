ghost use Rattle.std.specs.Prelude.{◌≡◌, IfOk};

use sqlite_items::Items;
use std::alloc::Global;
use tu_base::Memory;

/// An index of an array whose bounds stand at its name.
#[derive(Clone, Copy, PartialEq, Eq)]
pub enum Bounds {
    /// An index type.
    Within { index: u32 },
    /// Numbers of a root from a lower bound on.
    From { root: u32, low: i32 },
}

/// The type of a name or place.
#[derive(Drop)]
pub enum Kind {
    /// One of the table.
    Whole {
        type_number: u32,
    },
    /// `string (*)`
    AnyText,
    /// An array with bounds that stand at its name.
    AnyArray {
        indexes: Items<Bounds>,
        component: u32,
    },
}

impl Kind {
    /// The same kind once more.
    pub fn duplicate(&self, alloc: Global) -> Result<Kind, Memory>
        ensures { IfOk result (λ kind. kind ≡ self.now) }
    {
        match self {
            Kind::Whole { type_number } => Ok(Kind::Whole {
                type_number: *type_number,
            }),
            Kind::AnyText => Ok(Kind::AnyText),
            Kind::AnyArray { indexes, component } => {
                let indexes = Items::from_slice(alloc, indexes.as_slice())?;
                Ok(Kind::AnyArray {
                    indexes,
                    component: *component,
                })
            }
        }
    }
}
