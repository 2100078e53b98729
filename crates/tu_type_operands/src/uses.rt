// The declarations of used names.
ghost use Rattle.std.specs.Prelude.{◌≡◌, [], IfOk, drop};
ghost use Rattle.std.specs.Option.{option_copied};
ghost use Rattle.tu_type_operands.specs.Tables.{declaration_at, uses_by_start};

use std::alloc::Global;
use std::collections::BTreeMap;
use std::marker::Model;
use tu_base::Memory;
use tu_scope_rules::NameUse;

/// For each used name its declaration, by where it begins: none for a predefined name.
#[derive(Drop)]
pub struct Uses {
    by_start: BTreeMap<u32, Option<u32>>,
}

impl Model for Uses {
    ghost use Rattle.std.specs.Prelude.{List, ℕ, Option};

    ghost Value = { List (ℕ × Option ℕ) };

    ghost view = { λ u. u.by_start.entries };
}

impl Uses {
    /// The uses of a list. Of two that begin at one place the first counts.
    pub fn new(alloc: Global, uses: &[NameUse]) -> Result<Self, Memory>
        ensures { IfOk result (λ table. table ≡ uses_by_start uses.now) }
    {
        let mut by_start = BTreeMap::new(alloc);
        for place in (0..uses.len()).rev() {
            let used = uses[place];
            by_start.insert(used.start, used.declaration)?;
        }
        Ok(Uses { by_start })
    }

    /// The declaration of the name that begins at a place.
    pub fn declaration(&self, start: u32) -> Option<u32>
        ensures { result ≡ declaration_at self.now start }
    {
        match self.by_start.get(&start) {
            Some(declaration) => *declaration,
            None => None,
        }
    }
}
