ghost use Rattle.std.specs.Prelude.{◌≡◌, ◌+◌, ◌*◌, ◌<◌, ◌≤◌, length, IfOk};
ghost use Rattle.grammar.specs.Description.{rule};
ghost use Rattle.grammar.specs.Tree.{n-sequence, n-token};
ghost use Rattle.tu_token.specs.Rules.{◌⨟◌, t, maybe, listed, body, r-exp, r-export, r-imp, r-import};
ghost use Rattle.tu_token.specs.declared.class.Class.TheVariants.{SignRightBracket};
ghost use Rattle.tu_expr.specs.Parts.{any_listing, optional};
ghost use Rattle.tu_tree.specs.ImportViews.{export_view, import_view};
ghost use Rattle.tu_reader.specs.Ahead.{weight};
ghost use Rattle.tu_reader.specs.Reads.{Reads};

use sqlite_items::Items;
use std::alloc::Global;
use tu_reader::{Cursor, Stop};
use tu_tree::{Class, Export, ExportForm, ExportItem, Import, ImportForm, ImportItem};

fn imports(alloc: Global, tokens: &mut Cursor<'_>) -> Result<Import, Stop>
    requires { weight tokens.old < 4294967295 }
    ensures reads { Reads (rule r-import) (λ x. x) result tokens.old tokens.new }
    ensures less { IfOk result (λ _. weight tokens.new + 31 ≤ weight tokens.old) }
{
    let at = tokens.mark();
    let form = import_form(alloc, tokens)?;
    Ok(Import { at, form })
}

fn import_form(alloc: Global, tokens: &mut Cursor<'_>) -> Result<ImportForm, Stop>
    requires { weight tokens.old ≤ 4294967295 }
    ensures reads { Reads (body r-import) import_view result tokens.old tokens.new }
    ensures less { IfOk result (λ _. weight tokens.new + 32 ≤ weight tokens.old) }
{
    tokens.expect(Class::WordImport)?;
    if tokens.sees(Class::SignLeftBracket) {
        tokens.skip(Class::SignLeftBracket);
        let items = bracketed_imports(alloc, tokens)?;
        return Ok(ImportForm::Bracketed(items));
    }
    let first = import_item(alloc, tokens)?;
    let mut more = Items::new(alloc);
    while tokens.eat(Class::SignComma) {
        let next = import_item(alloc, tokens)?;
        more.push(next)?;
    }
    Ok(ImportForm::Plain(first, more))
}

// Any number of imported names, and the bracket behind them.
fn bracketed_imports(alloc: Global, tokens: &mut Cursor<'_>) -> Result<Items<ImportItem>, Stop>
    requires { weight tokens.old < 4294967295 }
    ensures reads { Reads (maybe (listed r-imp) ⨟ t SignRightBracket) (λ items. n-sequence (any_listing r-imp items) n-token) result tokens.old tokens.new }
    ensures less { IfOk result (λ _. weight tokens.new ≤ weight tokens.old) }
{
    let mut items = Items::new(alloc);
    if tokens.sees(Class::SignRightBracket) {
        tokens.skip(Class::SignRightBracket);
        return Ok(items);
    }
    let first = import_item(alloc, tokens)?;
    items.push(first)?;
    while tokens.eat(Class::SignComma) {
        let next = import_item(alloc, tokens)?;
        items.push(next)?;
    }
    tokens.expect(Class::SignRightBracket)?;
    Ok(items)
}

fn import_item(alloc: Global, tokens: &mut Cursor<'_>) -> Result<ImportItem, Stop>
    requires { weight tokens.old < 4294967295 }
    ensures reads { Reads (rule r-imp) (λ x. x) result tokens.old tokens.new }
    ensures less { IfOk result (λ _. weight tokens.new + 31 ≤ weight tokens.old) }
{
    let at = tokens.mark();
    let is_var = tokens.eat(Class::WordVar);
    let name = tokens.leaf(alloc, Class::Name)?;
    Ok(ImportItem { at, is_var, name })
}

/// The imported names, if there are any.
pub fn optional_import(alloc: Global, tokens: &mut Cursor<'_>) -> Result<Option<Import>, Stop>
    requires { weight tokens.old < 4294967295 }
    ensures reads { Reads (maybe (rule r-import)) (optional (rule r-import)) result tokens.old tokens.new }
    ensures less { IfOk result (λ _. weight tokens.new ≤ weight tokens.old) }
{
    if tokens.sees(Class::WordImport) {
        let names = imports(alloc, tokens)?;
        return Ok(Some(names));
    }
    Ok(None)
}

fn exports(alloc: Global, tokens: &mut Cursor<'_>) -> Result<Export, Stop>
    requires { weight tokens.old < 4294967295 }
    ensures reads { Reads (rule r-export) (λ x. x) result tokens.old tokens.new }
    ensures less { IfOk result (λ _. weight tokens.new + 31 ≤ weight tokens.old) }
{
    let at = tokens.mark();
    let form = export_form(alloc, tokens)?;
    Ok(Export { at, form })
}

fn export_form(alloc: Global, tokens: &mut Cursor<'_>) -> Result<ExportForm, Stop>
    requires { weight tokens.old ≤ 4294967295 }
    ensures reads { Reads (body r-export) export_view result tokens.old tokens.new }
    ensures less { IfOk result (λ _. weight tokens.new + 32 ≤ weight tokens.old) }
{
    tokens.expect(Class::WordExport)?;
    if tokens.sees(Class::SignLeftBracket) {
        tokens.skip(Class::SignLeftBracket);
        let items = bracketed_exports(alloc, tokens)?;
        return Ok(ExportForm::Bracketed(items));
    }
    let first = export_item(alloc, tokens)?;
    let mut more = Items::new(alloc);
    while tokens.eat(Class::SignComma) {
        let next = export_item(alloc, tokens)?;
        more.push(next)?;
    }
    Ok(ExportForm::Plain(first, more))
}

// Any number of exported names, and the bracket behind them.
fn bracketed_exports(alloc: Global, tokens: &mut Cursor<'_>) -> Result<Items<ExportItem>, Stop>
    requires { weight tokens.old < 4294967295 }
    ensures reads { Reads (maybe (listed r-exp) ⨟ t SignRightBracket) (λ items. n-sequence (any_listing r-exp items) n-token) result tokens.old tokens.new }
    ensures less { IfOk result (λ _. weight tokens.new ≤ weight tokens.old) }
{
    let mut items = Items::new(alloc);
    if tokens.sees(Class::SignRightBracket) {
        tokens.skip(Class::SignRightBracket);
        return Ok(items);
    }
    let first = export_item(alloc, tokens)?;
    items.push(first)?;
    while tokens.eat(Class::SignComma) {
        let next = export_item(alloc, tokens)?;
        items.push(next)?;
    }
    tokens.expect(Class::SignRightBracket)?;
    Ok(items)
}

fn export_item(alloc: Global, tokens: &mut Cursor<'_>) -> Result<ExportItem, Stop>
    requires { weight tokens.old < 4294967295 }
    ensures reads { Reads (rule r-exp) (λ x. x) result tokens.old tokens.new }
    ensures less { IfOk result (λ _. weight tokens.new + 31 ≤ weight tokens.old) }
{
    let at = tokens.mark();
    let is_opaque = tokens.eat(Class::WordOpaque);
    let name = tokens.leaf(alloc, Class::Name)?;
    Ok(ExportItem {
        at,
        is_opaque,
        name,
    })
}

/// The exported names, if there are any.
pub fn optional_export(alloc: Global, tokens: &mut Cursor<'_>) -> Result<Option<Export>, Stop>
    requires { weight tokens.old < 4294967295 }
    ensures reads { Reads (maybe (rule r-export)) (optional (rule r-export)) result tokens.old tokens.new }
    ensures less { IfOk result (λ _. weight tokens.new ≤ weight tokens.old) }
{
    if tokens.sees(Class::WordExport) {
        let names = exports(alloc, tokens)?;
        return Ok(Some(names));
    }
    Ok(None)
}
