// Imports and exports.
ghost use Rattle.std.specs.Prelude.{IfOk};
ghost use Rattle.grammar.specs.Description.{rule};
ghost use Rattle.tu_token.specs.Rules.{r-export, r-import};
ghost use Rattle.tu_expr.specs.Parts.{optional};
ghost use Rattle.tu_flatten_parts.specs.Writes.{Writes};

use crate::pieces::Pieces;
use tu_base::Memory;
use tu_tree::{Class, Export, ExportForm, ExportItem, Import, ImportForm, ImportItem};

fn write_import_item(item: &ImportItem, out: &mut Pieces) -> Result<(), Memory>
    ensures { IfOk result (λ _. Writes item.now out.old out.new) }
{
    out.flag(Class::WordVar, item.is_var)?;
    out.name(&item.name)?;
    Ok(())
}

fn write_import(import: &Import, out: &mut Pieces) -> Result<(), Memory>
    ensures { IfOk result (λ _. Writes import.now out.old out.new) }
{
    out.word(Class::WordImport)?;
    match &import.form {
        ImportForm::Bracketed(items) => {
            out.word(Class::SignLeftBracket)?;
            for (i, x) in items.as_slice().iter().enumerate() {
                out.separate(i)?;
                write_import_item(x, out)?;
            }
            out.word(Class::SignRightBracket)
        }
        ImportForm::Plain(first, more) => {
            write_import_item(first, out)?;
            for x in more.as_slice() {
                out.word(Class::SignComma)?;
                write_import_item(x, out)?;
            }
            Ok(())
        }
    }
}

/// Adds an import, where there is one.
pub fn write_any_import(import: &Option<Import>, out: &mut Pieces) -> Result<(), Memory>
    ensures { IfOk result (λ _. Writes (optional (rule r-import) import.now) out.old out.new) }
{
    match import {
        Some(import) => write_import(import, out),
        None => Ok(()),
    }
}

fn write_export_item(item: &ExportItem, out: &mut Pieces) -> Result<(), Memory>
    ensures { IfOk result (λ _. Writes item.now out.old out.new) }
{
    out.flag(Class::WordOpaque, item.is_opaque)?;
    out.name(&item.name)?;
    Ok(())
}

fn write_export(export: &Export, out: &mut Pieces) -> Result<(), Memory>
    ensures { IfOk result (λ _. Writes export.now out.old out.new) }
{
    out.word(Class::WordExport)?;
    match &export.form {
        ExportForm::Bracketed(items) => {
            out.word(Class::SignLeftBracket)?;
            for (i, x) in items.as_slice().iter().enumerate() {
                out.separate(i)?;
                write_export_item(x, out)?;
            }
            out.word(Class::SignRightBracket)
        }
        ExportForm::Plain(first, more) => {
            write_export_item(first, out)?;
            for x in more.as_slice() {
                out.word(Class::SignComma)?;
                write_export_item(x, out)?;
            }
            Ok(())
        }
    }
}

/// Adds an export, where there is one.
pub fn write_any_export(export: &Option<Export>, out: &mut Pieces) -> Result<(), Memory>
    ensures { IfOk result (λ _. Writes (optional (rule r-export) export.now) out.old out.new) }
{
    match export {
        Some(export) => write_export(export, out),
        None => Ok(()),
    }
}
