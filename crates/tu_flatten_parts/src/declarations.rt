// Declarations.
ghost use Rattle.std.specs.Prelude.{IfOk};
ghost use Rattle.tu_tree.specs.DeclarationViews.{started_view, typed_view};
ghost use Rattle.tu_flatten_parts.specs.Writes.{Writes};

use crate::expressions::{write_expr, write_path};
use crate::pieces::Pieces;
use crate::types::{write_names, write_spec};
use tu_base::Memory;
use tu_tree::{Bind, Binding, Class, Const, Spec, Start, StartForm, TypeDeclaration, Var, VarForm};

#[cycle(start)]
fn write_start(start: &Start, out: &mut Pieces) -> Result<(), Memory>
    ensures { IfOk result (λ _. Writes start.now out.old out.new) }
{
    match &start.form {
        StartForm::Value(value) => write_expr(value.get(), out),
        StartForm::Init(first, more) => {
            out.word(Class::WordInit)?;
            out.word(Class::SignLeftBracket)?;
            write_start(first.get(), out)?;
            for x in more.as_slice() {
                out.word(Class::SignComma)?;
                write_start(x, out)?;
            }
            out.word(Class::SignRightBracket)
        }
    }
}

fn write_typed(spec: &Option<Spec>, out: &mut Pieces) -> Result<(), Memory>
    ensures { IfOk result (λ _. Writes (typed_view spec.now) out.old out.new) }
{
    match spec {
        Some(spec) => {
            out.word(Class::SignColon)?;
            write_spec(spec, out)
        }
        None => Ok(()),
    }
}

fn write_started(start: &Option<Start>, out: &mut Pieces) -> Result<(), Memory>
    ensures { IfOk result (λ _. Writes (started_view start.now) out.old out.new) }
{
    match start {
        Some(start) => {
            out.word(Class::SignAssign)?;
            write_start(start, out)
        }
        None => Ok(()),
    }
}

/// Adds the declaration of a constant.
pub fn write_const(constant: &Const, out: &mut Pieces) -> Result<(), Memory>
    ensures { IfOk result (λ _. Writes constant.now out.old out.new) }
{
    out.word(Class::WordConst)?;
    out.name(&constant.name)?;
    write_typed(&constant.spec, out)?;
    out.word(Class::SignAssign)?;
    write_start(&constant.start, out)?;
    Ok(())
}

/// Adds the declaration of variables.
pub fn write_var(var: &Var, out: &mut Pieces) -> Result<(), Memory>
    ensures { IfOk result (λ _. Writes var.now out.old out.new) }
{
    out.word(Class::WordVar)?;
    write_names(&var.names, out)?;
    match &var.form {
        VarForm::Collection(spec) => {
            out.word(Class::SignColon)?;
            out.word(Class::WordCollection)?;
            out.word(Class::WordOf)?;
            write_spec(spec, out)
        }
        VarForm::Typed(spec, start) => {
            out.word(Class::SignColon)?;
            write_spec(spec, out)?;
            write_started(start, out)
        }
        VarForm::Started(value) => {
            out.word(Class::SignAssign)?;
            write_expr(value.get(), out)
        }
    }
}

/// Adds the declaration of a type.
pub fn write_type(declaration: &TypeDeclaration, out: &mut Pieces) -> Result<(), Memory>
    ensures { IfOk result (λ _. Writes declaration.now out.old out.new) }
{
    out.word(Class::WordType)?;
    out.name(&declaration.name)?;
    out.word(Class::SignColon)?;
    write_spec(&declaration.spec, out)?;
    Ok(())
}

fn write_binding(binding: &Binding, out: &mut Pieces) -> Result<(), Memory>
    ensures { IfOk result (λ _. Writes binding.now out.old out.new) }
{
    out.flag(Class::WordVar, binding.is_var)?;
    out.name(&binding.name)?;
    out.word(Class::WordTo)?;
    write_path(&binding.path, out)?;
    Ok(())
}

/// Adds a `bind`.
pub fn write_bind(bind: &Bind, out: &mut Pieces) -> Result<(), Memory>
    ensures { IfOk result (λ _. Writes bind.now out.old out.new) }
{
    out.word(Class::WordBind)?;
    write_binding(&bind.first, out)?;
    for x in bind.more.as_slice() {
        out.word(Class::SignComma)?;
        write_binding(x, out)?;
    }
    Ok(())
}
