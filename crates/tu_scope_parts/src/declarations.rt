// Declarations.
ghost use Rattle.std.specs.Prelude.{OnOk};
ghost use Rattle.tu_tree.specs.DeclarationViews.{started_view, typed_view};
ghost use Rattle.tu_scope_parts.specs.Adds.{Adds};

use crate::events::Events;
use crate::expressions::{walk_expr, walk_path};
use crate::names::{NameRole, declare, list_names};
use crate::types::walk_spec;
use tu_base::Memory;
use tu_scope_rules::Context;
use tu_tree::{Bind, Binding, Const, Spec, Start, StartForm, TypeDeclaration, Var, VarForm};

#[cycle(start)]
fn walk_start<'a>(start: &'a Start, out: &mut Events<'a>) -> Result<(), Memory>
    ensures { OnOk result (Adds Context.Elsewhere start.now out.old out.new) }
{
    match &start.form {
        StartForm::Value(value) => walk_expr(Context::Elsewhere, value.get(), out),
        StartForm::Init(first, more) => {
            walk_start(first.get(), out)?;
            for x in more.as_slice() {
                walk_start(x, out)?;
            }
            Ok(())
        }
    }
}

fn walk_typed<'a>(spec: &'a Option<Spec>, out: &mut Events<'a>) -> Result<(), Memory>
    ensures { OnOk result (Adds Context.Elsewhere (typed_view spec.now) out.old out.new) }
{
    match spec {
        Some(spec) => walk_spec(spec, out),
        None => Ok(()),
    }
}

fn walk_started<'a>(start: &'a Option<Start>, out: &mut Events<'a>) -> Result<(), Memory>
    ensures { OnOk result (Adds Context.Elsewhere (started_view start.now) out.old out.new) }
{
    match start {
        Some(start) => walk_start(start, out),
        None => Ok(()),
    }
}

/// Adds the events of a constant's declaration.
pub fn walk_const<'a>(constant: &'a Const, out: &mut Events<'a>) -> Result<(), Memory>
    ensures { OnOk result (Adds Context.Elsewhere constant.now out.old out.new) }
{
    walk_typed(&constant.spec, out)?;
    walk_start(&constant.start, out)?;
    declare(&constant.name, out)?;
    Ok(())
}

/// Adds the events of a declaration of variables or collections.
pub fn walk_var<'a>(var: &'a Var, out: &mut Events<'a>) -> Result<(), Memory>
    ensures { OnOk result (Adds Context.Elsewhere var.now out.old out.new) }
{
    match &var.form {
        VarForm::Collection(spec) => {
            out.open(var.at.number)?;
            list_names(NameRole::Early, &var.names, out)?;
            walk_spec(spec, out)?;
            out.close()?;
            list_names(NameRole::Declared, &var.names, out)?;
            Ok(())
        }
        VarForm::Typed(spec, start) => {
            walk_spec(spec, out)?;
            walk_started(start, out)?;
            list_names(NameRole::Declared, &var.names, out)?;
            Ok(())
        }
        VarForm::Started(value) => {
            walk_expr(Context::Elsewhere, value.get(), out)?;
            list_names(NameRole::Declared, &var.names, out)?;
            Ok(())
        }
    }
}

/// Adds the events of a type's declaration.
pub fn walk_type<'a>(declaration: &'a TypeDeclaration, out: &mut Events<'a>) -> Result<(), Memory>
    ensures { OnOk result (Adds Context.Elsewhere declaration.now out.old out.new) }
{
    walk_spec(&declaration.spec, out)?;
    declare(&declaration.name, out)?;
    Ok(())
}

fn walk_binding<'a>(binding: &'a Binding, out: &mut Events<'a>) -> Result<(), Memory>
    ensures { OnOk result (Adds Context.Elsewhere binding.now out.old out.new) }
{
    walk_path(Context::Elsewhere, &binding.path, out)?;
    declare(&binding.name, out)?;
    Ok(())
}

/// Adds the events of a `bind`.
pub fn walk_bind<'a>(bind: &'a Bind, out: &mut Events<'a>) -> Result<(), Memory>
    ensures { OnOk result (Adds Context.Elsewhere bind.now out.old out.new) }
{
    walk_binding(&bind.first, out)?;
    for x in bind.more.as_slice() {
        walk_binding(x, out)?;
    }
    Ok(())
}
