// The names of a text, each with its declaration, or the least fault.
ghost use Rattle.std.specs.Prelude.{◌≡◌, [], ◌++◌, IfErr, IfOk, OnOk};
ghost use Rattle.tu_scope_rules.specs.Answers.{IsCause, IsScoped};
ghost use Rattle.tu_scope_rules.specs.Least.{with_first};
ghost use Rattle.tu_scope_rules.specs.Passes.{Passes};
ghost use Rattle.tu_scope_rules.specs.Seen.{view_in};
ghost use Rattle.tu_scope_rules.specs.Uses.{listed};
ghost use Rattle.tu_scope_rules.specs.Views.{start};

use crate::environment::Environment;
use crate::error::ScopeError;
use crate::event::{BodyKind, Context, Declaration, Entity, Event, Name};
use crate::fault::{Fault, FaultKind};
use crate::faults::{
    body_scope, fault_if, fault_of_body, fault_of_member, fault_of_use, fault_unless, use_of,
    use_of_declaration,
};
use crate::name_use::NameUse;
use crate::search::{Found, Scope};
use crate::table::Namespace;
use std::alloc::Global;
use std::marker::Model;
use tu_base::Memory;

/// The used names of a text without faults, each with its declaration, in the order of its events.
#[derive(Drop)]
pub struct Scoped {
    uses: Vec<NameUse>,
}

impl Model for Scoped {
    ghost use Rattle.std.specs.Prelude.{List};
    ghost use Rattle.tu_scope_rules.specs.declared.name_use.NameUse.{NameUse};

    ghost Value = { List NameUse };

    ghost view = { λ s. s.uses.items };
}

impl Scoped {
    pub fn as_slice(&self) -> &[NameUse]
        ensures { result.now ≡ self.now }
    {
        self.uses.as_slice()
    }
}

// What has come of a text so far.
#[derive(Drop)]
struct Resolver<'a> {
    environment: Environment<'a>,
    first: Option<Fault>,
    uses: Vec<NameUse>,
}

impl<'a> Resolver<'a> {
    fn new(alloc: Global) -> Result<Self, Memory>
        ensures view { IfOk result (λ r. view_in r.environment ≡ start) }
        ensures fault { IfOk result (λ r. r.first ≡ None) }
        ensures uses { IfOk result (λ r. r.uses.items ≡ []) }
    {
        Ok(Resolver {
            environment: Environment::new(alloc)?,
            first: None,
            uses: Vec::new(alloc),
        })
    }

    fn note(&mut self, fault: Option<Fault>)
        ensures { self.new ≡ record self.old { first = with_first fault self.old.first } }
    {
        if let Some(fault) = fault {
            self.first = Some(fault.earlier(self.first));
        }
    }

    fn list(&mut self, one: Option<NameUse>) -> Result<(), Memory>
        ensures environment { OnOk result (self.new.environment ≡ self.old.environment) }
        ensures first { OnOk result (self.new.first ≡ self.old.first) }
        ensures uses { OnOk result (self.new.uses.items ≡ self.old.uses.items ++ listed one) }
    {
        if let Some(one) = one {
            self.uses.push(one)?;
        }
        Ok(())
    }

    fn declare(&mut self, name: &Name<'a>, declaration: Declaration) -> Result<(), Memory>
        ensures { OnOk result (Passes self.old self.new (Event.Declare name.now declaration)) }
    {
        let declared = self.environment.here(Namespace::Declared, name);
        self.note(fault_if(declared.is_some(), FaultKind::Twice, name));
        self.environment.put(Namespace::Declared, name, declaration)
    }

    fn member(&mut self, name: &Name<'a>, declaration: Declaration) -> Result<(), Memory>
        ensures { OnOk result (Passes self.old self.new (Event.Member name.now declaration)) }
    {
        let declared = self.environment.here(Namespace::Member, name);
        self.note(fault_if(declared.is_some(), FaultKind::Twice, name));
        self.environment.put(Namespace::Member, name, declaration)
    }

    fn import(&mut self, name: &Name<'a>, scope: u32) -> Result<(), Memory>
        ensures { OnOk result (Passes self.old self.new (Event.Import name.now scope)) }
    {
        let found = self.environment.look_up(Context::Elsewhere, name);
        self.note(fault_of_use(name, found));
        self.list(use_of(name, found))?;
        match found {
            Found::Known(declaration) => {
                self.environment
                    .put_in(scope, Namespace::Imported, name, declaration)
            }
            Found::Predefined | Found::Hidden | Found::Nowhere => Ok(()),
        }
    }

    fn export(&mut self, name: &Name<'a>) -> Result<(), Memory>
        ensures { OnOk result (Passes self.old self.new (Event.Export name.now)) }
    {
        let declared = self.environment.here(Namespace::Declared, name);
        self.note(fault_unless(declared.is_some(), FaultKind::Unknown, name));
        self.list(use_of_declaration(name, declared))?;
        match declared {
            Some(declaration) => self.environment.put(Namespace::Exported, name, declaration),
            None => Ok(()),
        }
    }

    fn name(&mut self, name: &Name<'a>, context: Context) -> Result<(), Memory>
        ensures { OnOk result (Passes self.old self.new (Event.Use name.now context)) }
    {
        let found = self.environment.look_up(context, name);
        self.note(fault_of_use(name, found));
        self.list(use_of(name, found))
    }

    fn select(&mut self, name: &Name<'a>, member: &Name<'a>, context: Context) -> Result<(), Memory>
        ensures { OnOk result (Passes self.old self.new (Event.Select name.now member.now context)) }
    {
        let found = self.environment.look_up(context, name);
        self.list(use_of(name, found))?;
        match found {
            Found::Known(declaration) => match declaration.entity {
                Entity::Module(scope) => {
                    let declared = self.environment.at(scope, Namespace::Declared, member);
                    let exported = self.environment.at(scope, Namespace::Exported, member);
                    self.note(fault_of_member(name, member, declared, exported));
                    self.list(use_of_declaration(member, declared))
                }
                Entity::Plain | Entity::Subprogram(..) => Ok(()),
            },
            Found::Predefined | Found::Hidden | Found::Nowhere => {
                self.note(fault_of_use(name, found));
                Ok(())
            }
        }
    }

    fn body(&mut self, name: &Name<'a>, kind: BodyKind, scope: u32) -> Result<(), Memory>
        ensures { OnOk result (Passes self.old self.new (Event.Body name.now kind scope)) }
    {
        let awaited = self.environment.awaited(kind, name);
        let declared = self.environment.here(Namespace::Declared, name);
        self.note(fault_of_body(name, awaited, declared));
        self.list(use_of_declaration(name, awaited))?;
        let declaration = Declaration {
            number: scope,
            entity: Entity::Plain,
        };
        self.environment
            .put(kind.body_namespace(), name, declaration)?;
        self.environment.open(body_scope(awaited, scope))
    }

    // Goes past an event.
    fn pass(&mut self, event: &Event<'a>) -> Result<(), Memory>
        ensures { OnOk result (Passes self.old self.new event.now) }
    {
        match event {
            Event::Open(number, visibility) => self.environment.open(Scope {
                number: *number,
                visibility: *visibility,
            }),
            Event::Close => {
                self.environment.close();
                Ok(())
            }
            Event::Declare(name, declaration) => self.declare(name, *declaration),
            Event::Member(name, declaration) => self.member(name, *declaration),
            Event::Own(name, declaration) => {
                self.environment
                    .put(Namespace::Imported, name, *declaration)
            }
            Event::Early(name, declaration) => {
                self.environment.put(Namespace::Early, name, *declaration)
            }
            Event::Outcome(name, declaration) => {
                self.environment.put(Namespace::Outcome, name, *declaration)
            }
            Event::Import(name, scope) => self.import(name, *scope),
            Event::Export(name) => self.export(name),
            Event::Use(name, context) => self.name(name, *context),
            Event::Select(name, member, context) => self.select(name, member, *context),
            Event::Forward(name, kind, declaration) => {
                self.environment
                    .put(kind.forward_namespace(), name, *declaration)
            }
            Event::Body(name, kind, scope) => self.body(name, *kind, *scope),
            Event::Await(name, kind) => {
                let body = self.environment.here(kind.body_namespace(), name);
                self.note(fault_unless(body.is_some(), FaultKind::BodyMissing, name));
                Ok(())
            }
            Event::End(name, opened) => {
                self.note(fault_unless(name.text == opened.text, FaultKind::WrongEnd, name));
                Ok(())
            }
        }
    }
}

/// The declarations of all used names, or the least fault, or want of memory.
pub fn resolve_events<'a>(alloc: Global, events: &[Event<'a>]) -> Result<Scoped, ScopeError>
    ensures scoped { IfOk result (λ uses. IsScoped events.now uses) }
    ensures refused { IfErr result (λ error. IsCause events.now error) }
{
    let mut resolver = Resolver::new(alloc)?;
    for event in events {
        resolver.pass(event)?;
    }
    match resolver.first {
        None => Ok(Scoped {
            uses: resolver.uses,
        }),
        Some(fault) => Err(fault.error()),
    }
}
