// The names that are declared.
ghost use Rattle.std.specs.Prelude.{◌≡◌, List, [], ◌∷◌, not, IfOk, OnErr, if◌then◌else◌};
ghost use Rattle.tu_check.specs.Built.{is_declared};

use indexmap::IndexSet;
use std::alloc::Global;
use std::marker::Model;
use tu_base::Memory;

/// The names that are declared, the newest first.
#[derive(Drop)]
pub struct Declared<'a> {
    names: IndexSet<&'a [u8]>,
}

impl<'a> Model for Declared<'a> {
    ghost use Rattle.std.specs.Prelude.{List, ℕ};
    ghost use Rattle.tu_check.specs.Names.{newest_first};

    ghost Value = { List (List ℕ) };

    ghost view = { λ d. newest_first d.names.keys };
}

impl<'a> Declared<'a> {
    /// None.
    pub fn new(alloc: Global) -> Self
        ensures { result ≡ [] }
    {
        Declared {
            names: IndexSet::new(alloc),
        }
    }

    /// Whether a name is declared.
    pub fn contains(&self, name: &[u8]) -> bool
        ensures { result ≡ is_declared self.now name.now }
    {
        self.names.contains(name)
    }

    /// Declares a name, and tells whether it was not declared before.
    pub fn declare(&mut self, name: &'a [u8]) -> Result<bool, Memory>
        ensures fresh { IfOk result (λ is_new. is_new ≡ not (is_declared self.old name.now)) }
        ensures added { IfOk result (λ is_new. self.new ≡ (if is_new then name.now ∷ self.old else self.old)) }
        ensures same { OnErr result (self.new ≡ self.old) }
    {
        Ok(self.names.insert(name)?)
    }
}
