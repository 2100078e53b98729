// Import and export lists.
ghost use Rattle.std.specs.Prelude.{◌≡◌, ◌++◌, OnOk};
ghost use Rattle.grammar.specs.Description.{rule};
ghost use Rattle.grammar.specs.Tree.{n-left};
ghost use Rattle.tu_token.specs.Rules.{r-exp, r-export, r-imp, r-import};
ghost use Rattle.tu_expr.specs.Parts.{listing, optional};
ghost use Rattle.tu_scope_parts.specs.Adds.{Extends};
ghost use Rattle.tu_scope_parts.specs.Walk.{export_item, exports, exports_listed, import_item, imports, imports_listed, visibility};

use crate::events::Events;
use crate::names::name;
use tu_base::Memory;
use tu_scope_rules::{Event, Visibility};
use tu_tree::{Export, ExportForm, ExportItem, Import, ImportForm, ImportItem};

fn import_item<'a>(scope: u32, item: &'a ImportItem) -> Event<'a>
    ensures { result ≡ import_item scope item.now }
{
    Event::Import(name(&item.name), scope)
}

fn list_imports<'a>(
    scope: u32,
    first: &'a ImportItem,
    more: &'a [ImportItem],
    out: &mut Events<'a>,
) -> Result<(), Memory>
    ensures { OnOk result (Extends (imports_listed scope (listing r-imp first.now more.now)) out.old out.new) }
{
    out.push(import_item(scope, first))?;
    for x in more {
        out.push(import_item(scope, x))?;
    }
    Ok(())
}

fn list_import<'a>(scope: u32, import: &'a Import, out: &mut Events<'a>) -> Result<(), Memory>
    ensures { OnOk result (Extends (imports scope (n-left import.now)) out.old out.new) }
{
    match &import.form {
        ImportForm::Plain(first, more) => list_imports(scope, first, more.as_slice(), out),
        ImportForm::Bracketed(items) => match items.as_slice() {
            [] => Ok(()),
            [first, more @ ..] => list_imports(scope, first, more, out),
        },
    }
}

/// Adds an event for each name in the import list of the scope with a number.
pub fn list_any_import<'a>(
    scope: u32,
    import: &'a Option<Import>,
    out: &mut Events<'a>,
) -> Result<(), Memory>
    ensures { OnOk result (Extends (imports scope (optional (rule r-import) import.now)) out.old out.new) }
{
    match import {
        Some(import) => list_import(scope, import, out),
        None => Ok(()),
    }
}

/// What a subprogram sees of what lies around it.
pub fn visibility(import: &Option<Import>) -> Visibility
    ensures { result ≡ visibility (optional (rule r-import) import.now) }
{
    match import {
        Some(_) => Visibility::Listed,
        None => Visibility::All,
    }
}

fn export_item<'a>(item: &'a ExportItem) -> Event<'a>
    ensures { result ≡ export_item item.now }
{
    Event::Export(name(&item.name))
}

fn list_exports<'a>(
    first: &'a ExportItem,
    more: &'a [ExportItem],
    out: &mut Events<'a>,
) -> Result<(), Memory>
    ensures { OnOk result (Extends (exports_listed (listing r-exp first.now more.now)) out.old out.new) }
{
    out.push(export_item(first))?;
    for x in more {
        out.push(export_item(x))?;
    }
    Ok(())
}

fn list_export<'a>(export: &'a Export, out: &mut Events<'a>) -> Result<(), Memory>
    ensures { OnOk result (Extends (exports (n-left export.now)) out.old out.new) }
{
    match &export.form {
        ExportForm::Plain(first, more) => list_exports(first, more.as_slice(), out),
        ExportForm::Bracketed(items) => match items.as_slice() {
            [] => Ok(()),
            [first, more @ ..] => list_exports(first, more, out),
        },
    }
}

/// Adds an event for each name in an export list.
pub fn list_any_export<'a>(export: &'a Option<Export>, out: &mut Events<'a>) -> Result<(), Memory>
    ensures { OnOk result (Extends (exports (optional (rule r-export) export.now)) out.old out.new) }
{
    match export {
        Some(export) => list_export(export, out),
        None => Ok(()),
    }
}
