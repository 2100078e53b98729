// Heads of subprograms.
ghost use Rattle.std.specs.Prelude.{◌≡◌, [], ◌∷◌, ◌++◌, OnOk};
ghost use Rattle.grammar.specs.Description.{rule};
ghost use Rattle.grammar.specs.Tree.{n-left};
ghost use Rattle.tu_token.specs.Rules.{r-formals, r-import};
ghost use Rattle.tu_expr.specs.Leaves.{leaf_view};
ghost use Rattle.tu_expr.specs.Parts.{optional};
ghost use Rattle.tu_scope_parts.specs.Adds.{Adds, Extends};
ghost use Rattle.tu_scope_parts.specs.Walk.{awaited, begun, declared_formal, declared_formals, ended, forwarded, head_kind, head_name, head_names, subprogram, visibility};

use crate::events::Events;
use crate::imports::visibility;
use crate::names::{NameRole, list_any_name, list_names, name};
use crate::types::walk_spec;
use tu_base::Memory;
use tu_expr::Leaf;
use tu_scope_rules::{BodyKind, Context, Declaration, Entity, Event, Visibility};
use tu_token::Class;
use tu_tree::{Formal, Formals, Head, HeadForm, Import, Subprogram, SubprogramForm};

fn walk_formal<'a>(formal: &'a Formal, out: &mut Events<'a>) -> Result<(), Memory>
    ensures { OnOk result (Adds Context.Elsewhere formal.now out.old out.new) }
{
    walk_spec(&formal.spec, out)?;
    Ok(())
}

fn walk_formals<'a>(formals: &'a Formals, out: &mut Events<'a>) -> Result<(), Memory>
    ensures { OnOk result (Adds Context.Elsewhere formals.now out.old out.new) }
{
    for x in formals.items.as_slice() {
        walk_formal(x, out)?;
    }
    Ok(())
}

fn walk_any_formals<'a>(formals: &'a Option<Formals>, out: &mut Events<'a>) -> Result<(), Memory>
    ensures { OnOk result (Adds Context.Elsewhere (optional (rule r-formals) formals.now) out.old out.new) }
{
    match formals {
        Some(formals) => walk_formals(formals, out),
        None => Ok(()),
    }
}

/// Adds the events of the types in a head.
pub fn walk_head<'a>(head: &'a Head, out: &mut Events<'a>) -> Result<(), Memory>
    ensures { OnOk result (Adds Context.Elsewhere head.now out.old out.new) }
{
    match &head.form {
        HeadForm::Procedure(_, formals) => walk_any_formals(formals, out),
        HeadForm::Function {
            name: _,
            formals,
            result: _,
            spec,
        } => {
            walk_any_formals(formals, out)?;
            walk_spec(spec, out)
        }
    }
}

fn declare_formal<'a>(formal: &'a Formal, out: &mut Events<'a>) -> Result<(), Memory>
    ensures { OnOk result (Extends (declared_formal formal.now) out.old out.new) }
{
    list_names(NameRole::Declared, &formal.names, out)?;
    Ok(())
}

fn declare_formals<'a>(formals: &'a Formals, out: &mut Events<'a>) -> Result<(), Memory>
    ensures { OnOk result (Extends (declared_formals (n-left formals.now)) out.old out.new) }
{
    for x in formals.items.as_slice() {
        declare_formal(x, out)?;
    }
    Ok(())
}

fn declare_any_formals<'a>(formals: &'a Option<Formals>, out: &mut Events<'a>) -> Result<(), Memory>
    ensures { OnOk result (Extends (declared_formals (optional (rule r-formals) formals.now)) out.old out.new) }
{
    match formals {
        Some(formals) => declare_formals(formals, out),
        None => Ok(()),
    }
}

/// The name in a head.
pub fn head_name<'a>(head: &'a Head) -> &'a Leaf
    ensures { leaf_view Class.Name result.now ≡ head_name head.now }
{
    match &head.form {
        HeadForm::Procedure(name, _) => name,
        HeadForm::Function {
            name,
            formals: _,
            result: _,
            spec: _,
        } => name,
    }
}

fn head_kind(head: &Head) -> BodyKind
    ensures { result ≡ head_kind head.now }
{
    match &head.form {
        HeadForm::Procedure(..) => BodyKind::Procedure,
        HeadForm::Function { .. } => BodyKind::Function,
    }
}

fn list_head_names<'a>(head: &'a Head, out: &mut Events<'a>) -> Result<(), Memory>
    ensures { OnOk result (Extends (head_names head.now) out.old out.new) }
{
    match &head.form {
        HeadForm::Procedure(_, formals) => declare_any_formals(formals, out),
        HeadForm::Function {
            name: _,
            formals,
            result,
            spec: _,
        } => {
            list_any_name(NameRole::Outcome, result, out)?;
            declare_any_formals(formals, out)
        }
    }
}

fn subprogram(scope: u32, leaf: &Leaf, visibility: Visibility) -> Declaration
    ensures { result ≡ subprogram scope (leaf_view Class.Name leaf.now) visibility }
{
    Declaration {
        number: leaf.start,
        entity: Entity::Subprogram(scope, visibility),
    }
}

/// Declares a subprogram with an import list or without, and begins its scope.
pub fn begin_subprogram<'a>(
    scope: u32,
    head: &'a Head,
    import: &Option<Import>,
    out: &mut Events<'a>,
) -> Result<(), Memory>
    ensures { OnOk result (Extends (begun scope head.now (visibility (optional (rule r-import) import.now))) out.old out.new) }
{
    let leaf = head_name(head);
    let seen = visibility(import);
    let declaration = subprogram(scope, leaf, seen);
    out.push(Event::Declare(name(leaf), declaration))?;
    out.push(Event::Open(scope, seen))?;
    out.push(Event::Own(name(leaf), declaration))?;
    list_head_names(head, out)
}

/// Ends the scope of a forward, until its body.
pub fn end_forward<'a>(
    scope: u32,
    head: &'a Head,
    import: &Option<Import>,
    out: &mut Events<'a>,
) -> Result<(), Memory>
    ensures { OnOk result (Extends (forwarded scope head.now (visibility (optional (rule r-import) import.now))) out.old out.new) }
{
    let leaf = head_name(head);
    let declaration = subprogram(scope, leaf, visibility(import));
    out.close()?;
    out.push(Event::Forward(name(leaf), head_kind(head), declaration))
}

/// Ends a scope, with the name behind `end` and that of what was opened.
pub fn end_scope<'a>(opened: &'a Leaf, end: &'a Leaf, out: &mut Events<'a>) -> Result<(), Memory>
    ensures { OnOk result (Extends (ended (leaf_view Class.Name opened.now) (leaf_view Class.Name end.now)) out.old out.new) }
{
    out.close()?;
    out.push(Event::End(name(end), name(opened)))
}

/// Adds a forward once more, where the scope around it ends.
pub fn await_body<'a>(subprogram: &'a Subprogram, out: &mut Events<'a>) -> Result<(), Memory>
    ensures { OnOk result (Extends (awaited subprogram.now) out.old out.new) }
{
    match &subprogram.form {
        SubprogramForm::Forward(head, _) => {
            out.push(Event::Await(name(head_name(head)), head_kind(head)))
        }
        SubprogramForm::Whole(..) | SubprogramForm::Body(..) => Ok(()),
    }
}
