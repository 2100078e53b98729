// Which fault an event has, which use, and which scope a body goes on in.
ghost use Rattle.std.specs.Prelude.{◌≡◌};
ghost use Rattle.tu_scope_rules.specs.Faults.{fault_at, fault_if, fault_of_body, fault_of_member, fault_of_use, fault_unless};
ghost use Rattle.tu_scope_rules.specs.Uses.{listed, use_of, use_of_declaration};
ghost use Rattle.tu_scope_rules.specs.Views.{body_scope, scope_of};

use crate::event::{Declaration, Entity, Name, Visibility};
use crate::fault::{Fault, FaultKind};
use crate::name_use::NameUse;
use crate::search::{Found, Scope};

fn scope_of(entity: Entity, number: u32) -> Scope
    ensures { result ≡ scope_of entity number }
{
    match entity {
        Entity::Subprogram(number, visibility) => Scope { number, visibility },
        Entity::Plain | Entity::Module(_) => Scope {
            number,
            visibility: Visibility::All,
        },
    }
}

pub fn body_scope(forward: Option<Declaration>, number: u32) -> Scope
    ensures { result ≡ body_scope forward number }
{
    match forward {
        None => Scope {
            number,
            visibility: Visibility::All,
        },
        Some(declaration) => scope_of(declaration.entity, number),
    }
}

fn fault_at(kind: FaultKind, name: &Name) -> Option<Fault>
    ensures { result ≡ fault_at kind name.now }
{
    Some(Fault {
        kind,
        start: name.start,
        line: name.line,
    })
}

pub fn fault_if(is_fault: bool, kind: FaultKind, name: &Name) -> Option<Fault>
    ensures { result ≡ fault_if is_fault kind name.now }
{
    if is_fault { fault_at(kind, name) } else { None }
}

pub fn fault_unless(is_right: bool, kind: FaultKind, name: &Name) -> Option<Fault>
    ensures { result ≡ fault_unless is_right kind name.now }
{
    if is_right { None } else { fault_at(kind, name) }
}

pub fn fault_of_use(name: &Name, found: Found) -> Option<Fault>
    ensures { result ≡ fault_of_use name.now found }
{
    match found {
        Found::Nowhere => fault_at(FaultKind::Unknown, name),
        Found::Hidden => fault_at(FaultKind::NotImported, name),
        Found::Known(_) | Found::Predefined => None,
    }
}

pub fn fault_of_member(
    name: &Name,
    member: &Name,
    declared: Option<Declaration>,
    exported: Option<Declaration>,
) -> Option<Fault>
    ensures { result ≡ fault_of_member name.now member.now declared exported }
{
    match declared {
        None => fault_at(FaultKind::Unknown, member),
        Some(_) => match exported {
            None => fault_at(FaultKind::NotExported, name),
            Some(_) => None,
        },
    }
}

pub fn fault_of_body(
    name: &Name,
    awaited: Option<Declaration>,
    declared: Option<Declaration>,
) -> Option<Fault>
    ensures { result ≡ fault_of_body name.now awaited declared }
{
    match awaited {
        Some(_) => None,
        None => match declared {
            Some(_) => fault_at(FaultKind::Twice, name),
            None => fault_at(FaultKind::Unknown, name),
        },
    }
}

pub fn use_of(name: &Name, found: Found) -> Option<NameUse>
    ensures { listed result ≡ use_of name.now found }
{
    match found {
        Found::Known(declaration) => Some(NameUse {
            start: name.start,
            declaration: Some(declaration.number),
        }),
        Found::Predefined => Some(NameUse {
            start: name.start,
            declaration: None,
        }),
        Found::Hidden | Found::Nowhere => None,
    }
}

pub fn use_of_declaration(name: &Name, declaration: Option<Declaration>) -> Option<NameUse>
    ensures { listed result ≡ use_of_declaration name.now declaration }
{
    match declaration {
        None => None,
        Some(declaration) => Some(NameUse {
            start: name.start,
            declaration: Some(declaration.number),
        }),
    }
}
