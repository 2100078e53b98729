// What a text sees as it is gone through.
ghost use Rattle.std.specs.Prelude.{◌≡◌, IfOk, OnOk};
ghost use Rattle.tu_scope_rules.specs.Seen.{view_in};
ghost use Rattle.tu_scope_rules.specs.Views.{awaited, body_namespace, forward_namespace, here, innermost, look_up, start, with_declaration, with_scope, without_scope};

use crate::event::{BodyKind, Context, Declaration, Name, Visibility};
use crate::search::{Found, Scope, search};
use crate::table::{Namespace, Table};
use std::alloc::Global;
use tu_base::Memory;

/// The open scopes, the innermost last, and what is recorded.
#[derive(Drop)]
pub struct Environment<'a> {
    scopes: Vec<Scope>,
    table: Table<'a>,
}

impl BodyKind {
    pub fn forward_namespace(self) -> Namespace
        ensures { result ≡ forward_namespace self }
    {
        match self {
            BodyKind::Procedure => Namespace::ForwardProcedure,
            BodyKind::Function => Namespace::ForwardFunction,
        }
    }

    pub fn body_namespace(self) -> Namespace
        ensures { result ≡ body_namespace self }
    {
        match self {
            BodyKind::Procedure => Namespace::BodyProcedure,
            BodyKind::Function => Namespace::BodyFunction,
        }
    }
}

impl<'a> Environment<'a> {
    /// That of the start of a program.
    pub fn new(alloc: Global) -> Result<Self, Memory>
        ensures { IfOk result (λ environment. view_in environment ≡ start) }
    {
        let mut scopes = Vec::new(alloc);
        scopes.push(Scope {
            number: 0,
            visibility: Visibility::All,
        })?;
        Ok(Environment {
            scopes,
            table: Table::new(alloc),
        })
    }

    fn innermost(&self) -> u32
        ensures { result ≡ innermost (view_in self.now).scopes }
    {
        match self.scopes.last() {
            None => 0,
            Some(scope) => scope.number,
        }
    }

    /// What is recorded in the innermost scope.
    pub fn here(&self, namespace: Namespace, name: &Name<'a>) -> Option<Declaration>
        ensures { result ≡ here (view_in self.now) namespace name.now }
    {
        self.table.get(self.innermost(), namespace, name.text)
    }

    /// What is recorded in the scope with this number.
    pub fn at(&self, scope: u32, namespace: Namespace, name: &Name<'a>) -> Option<Declaration>
        ensures { result ≡ (view_in self.now).at scope namespace name.now.text }
    {
        self.table.get(scope, namespace, name.text)
    }

    /// What a name stands for.
    pub fn look_up(&self, context: Context, name: &Name<'a>) -> Found
        ensures { result ≡ look_up (view_in self.now) context name.now }
    {
        search(&self.table, name.text, context, self.scopes.as_slice())
    }

    /// The forward whose first body this is.
    pub fn awaited(&self, kind: BodyKind, name: &Name<'a>) -> Option<Declaration>
        ensures { result ≡ awaited (view_in self.now) kind name.now }
    {
        match self.here(kind.body_namespace(), name) {
            None => self.here(kind.forward_namespace(), name),
            Some(_) => None,
        }
    }

    /// Records a declaration in the scope with this number.
    pub fn put_in(
        &mut self,
        scope: u32,
        namespace: Namespace,
        name: &Name<'a>,
        declaration: Declaration,
    ) -> Result<(), Memory>
        ensures { OnOk result (view_in self.new ≡ with_declaration (view_in self.old) scope namespace name.now declaration) }
    {
        self.table.put(scope, namespace, name.text, declaration)
    }

    /// Records a declaration in the innermost scope.
    pub fn put(
        &mut self,
        namespace: Namespace,
        name: &Name<'a>,
        declaration: Declaration,
    ) -> Result<(), Memory>
        ensures { OnOk result (view_in self.new ≡ with_declaration (view_in self.old) (innermost (view_in self.old).scopes) namespace name.now declaration) }
    {
        let scope = self.innermost();
        self.put_in(scope, namespace, name, declaration)
    }

    pub fn open(&mut self, scope: Scope) -> Result<(), Memory>
        ensures { OnOk result (view_in self.new ≡ with_scope (view_in self.old) scope) }
    {
        self.scopes.push(scope)?;
        Ok(())
    }

    pub fn close(&mut self)
        ensures { view_in self.new ≡ without_scope (view_in self.old) }
    {
        let _ = self.scopes.pop();
    }
}
