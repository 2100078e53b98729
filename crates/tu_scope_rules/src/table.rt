// What is recorded of names.
ghost use Rattle.std.specs.Prelude.{◌≡◌, [], OnOk};
ghost use Rattle.tu_scope_rules.specs.Namespaces.{namespace_number};
ghost use Rattle.tu_scope_rules.specs.Entries.{entry_at, put_at};

use crate::event::Declaration;
use std::alloc::Global;
use std::collections::BTreeMap;
use std::marker::Model;
use tu_base::Memory;

/// What is kept apart in a scope.
#[derive(Clone, Copy, Debug)]
pub enum Namespace {
    Declared,
    /// Fields, tags and values of enumerations.
    Member,
    /// What an import list brings in, and a subprogram's own name.
    Imported,
    Exported,
    Early,
    Outcome,
    ForwardProcedure,
    ForwardFunction,
    BodyProcedure,
    BodyFunction,
}

impl Namespace {
    fn number(self) -> u32
        ensures { result ≡ namespace_number self }
    {
        match self {
            Namespace::Declared => 0,
            Namespace::Member => 1,
            Namespace::Imported => 2,
            Namespace::Exported => 3,
            Namespace::Early => 4,
            Namespace::Outcome => 5,
            Namespace::ForwardProcedure => 6,
            Namespace::ForwardFunction => 7,
            Namespace::BodyProcedure => 8,
            Namespace::BodyFunction => 9,
        }
    }
}

#[derive(Clone, Copy, PartialEq, Eq, PartialOrd, Ord, Drop)]
struct Key<'a> {
    scope: u32,
    namespace: u32,
    name: &'a [u8],
}

/// What is recorded, in an ordered map: no choice of names makes a look-up slow.
#[derive(Drop)]
pub struct Table<'a> {
    entries: BTreeMap<Key<'a>, Declaration>,
}

impl<'a> Model for Table<'a> {
    ghost use Rattle.std.specs.Prelude.{List};
    ghost use Rattle.tu_scope_rules.specs.Entries.{Entry};

    ghost Value = { List Entry };

    ghost use Rattle.tu_scope_rules.specs.Table.{entries_of};

    ghost view = { λ t. entries_of t.entries.entries };
}

impl<'a> Table<'a> {
    /// Nothing.
    pub fn new(alloc: Global) -> Self
        ensures { result ≡ [] }
    {
        Table {
            entries: BTreeMap::new(alloc),
        }
    }

    pub fn get(&self, scope: u32, namespace: Namespace, name: &'a [u8]) -> Option<Declaration>
        ensures { result ≡ entry_at self.now scope namespace name.now }
    {
        self.entries
            .get(&Key {
                scope,
                namespace: namespace.number(),
                name,
            })
            .copied()
    }

    pub fn put(
        &mut self,
        scope: u32,
        namespace: Namespace,
        name: &'a [u8],
        declaration: Declaration,
    ) -> Result<(), Memory>
        ensures { OnOk result (entry_at self.new ≡ put_at (entry_at self.old) scope namespace name.now declaration) }
    {
        self.entries.insert(
            Key {
                scope,
                namespace: namespace.number(),
                name,
            },
            declaration,
        )?;
        Ok(())
    }
}
