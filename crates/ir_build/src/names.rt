ghost use Rattle.std.specs.Prelude.{◌≡◌, ◌∷◌, [], None, OnOk, length};
ghost use Rattle.std.specs.Option.{option_map};
ghost use Rattle.ir_build.specs.Code.{named};

use indexmap::IndexMap;
use std::alloc::Global;
use std::marker::Model;
use tu_base::Memory;

/// The variables that are declared, each with the value of region code that has its address. The word
/// of a variable is its place among them.
#[derive(Drop)]
pub struct Names {
    values: IndexMap<Vec<u8>, u32>,
}

impl Model for Names {
    ghost use Rattle.std.specs.Prelude.{List, []};
    ghost use Rattle.std.specs.Str.{bytes_eq};
    ghost use Rattle.std.specs.List.{IsDistinct};
    ghost use Rattle.indexmap.specs.IndexMap.{keys};
    ghost use Rattle.ir_build.specs.Keeps.{Named};
    ghost use Rattle.ir_build.specs.Names.{coded_names, newest};

    ghost Value = { List Named };

    ghost coded = { coded_names };

    ghost view = { λ s. newest (λ k. k.items) [] s.values.entries };

    ghost invariant = { λ s. IsDistinct (λ a b. bytes_eq a.items b.items) (keys s.values) };
}

impl Names {
    /// No variables yet.
    pub fn new(alloc: Global) -> Self
        ensures { result ≡ [] }
    {
        Names {
            values: IndexMap::new(alloc),
        }
    }

    /// How many variables there are.
    pub fn len(&self) -> usize
        ensures { result ≡ length self.now }
    {
        self.values.len()
    }

    /// The value that has the address of a variable.
    pub fn find(&self, name: &[u8]) -> Option<u32>
        ensures { result ≡ option_map (λ n. n.at) (named name.now self.now) }
    {
        self.values.get(name).copied()
    }

    /// Declares a variable that is none of those before it.
    pub fn declare(&mut self, alloc: Global, name: &[u8], at: u32) -> Result<(), Memory>
        requires { named name.now self.old ≡ None }
        ensures { OnOk result
            (self.new ≡ record { name = name.now; word = length self.old; at = at } ∷ self.old) }
    {
        let name = Vec::from_slice(alloc, name)?;
        self.values.insert(name, at)?;
        Ok(())
    }
}
