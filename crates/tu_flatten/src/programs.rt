// Programs and modules.
ghost use Rattle.std.specs.Prelude.{IfOk};
ghost use Rattle.tu_tree.specs.ProgramViews.{module_part_view};
ghost use Rattle.tu_flatten_parts.specs.Writes.{Writes};

use crate::blocks::write_statement;
use crate::subprograms::write_subprogram;
use tu_base::Memory;
use tu_flatten_parts::{
    Pieces, write_any_export, write_any_import, write_const, write_ending, write_invariant,
    write_type, write_var,
};
use tu_tree::{Class, Item, ItemForm, Module, ModulePart, Tree};

fn write_module_part(part: &ModulePart, out: &mut Pieces) -> Result<(), Memory>
    ensures { IfOk result (λ _. Writes (module_part_view part.now) out.old out.new) }
{
    match part {
        ModulePart::Const(part) => write_const(part, out),
        ModulePart::Var(part) => write_var(part, out),
        ModulePart::Type(part) => write_type(part, out),
        ModulePart::Subprogram(part) => write_subprogram(part.get(), out),
        ModulePart::Statement(part) => write_statement(part, out),
        ModulePart::Invariant(part) => write_invariant(part, out),
    }
}

fn write_module(part: &Module, out: &mut Pieces) -> Result<(), Memory>
    ensures { IfOk result (λ _. Writes part.now out.old out.new) }
{
    out.word(Class::WordModule)?;
    out.name(&part.name)?;
    write_any_import(&part.import, out)?;
    write_any_export(&part.export, out)?;
    for x in part.parts.as_slice() {
        write_module_part(&x.0, out)?;
        out.flag(Class::SignSemicolon, x.1)?;
    }
    write_ending(&part.ending, out)?;
    Ok(())
}

fn write_item(item: &Item, out: &mut Pieces) -> Result<(), Memory>
    ensures { IfOk result (λ _. Writes item.now out.old out.new) }
{
    match &item.form {
        ItemForm::Const(part) => write_const(part, out),
        ItemForm::Var(part) => write_var(part, out),
        ItemForm::Type(part) => write_type(part, out),
        ItemForm::Subprogram(part) => write_subprogram(part.get(), out),
        ItemForm::Module(part) => write_module(part.get(), out),
        ItemForm::Statement(part) => write_statement(part, out),
    }
}

/// Adds a program.
pub fn write_tree(tree: &Tree, out: &mut Pieces) -> Result<(), Memory>
    ensures { IfOk result (λ _. Writes tree.now out.old out.new) }
{
    for x in tree.items.as_slice() {
        write_item(&x.0, out)?;
        out.flag(Class::SignSemicolon, x.1)?;
    }
    Ok(())
}
