// Statements without blocks.
ghost use Rattle.std.specs.Prelude.{OnOk};
ghost use Rattle.grammar.specs.Tree.{n-sequence};
ghost use Rattle.tu_token.specs.Rules.{r-shown, r-taken};
ghost use Rattle.tu_expr.specs.Parts.{listing};
ghost use Rattle.tu_tree.specs.StatementViews.{amount_view, statement_view, stream_view, width_view};
ghost use Rattle.tu_scope_parts.specs.Adds.{Adds};
ghost use Rattle.tu_scope.specs.Statements.{IsSimple};

use sqlite_items::{Boxed, Items};
use tu_base::Memory;
use tu_scope_parts::{Events, walk_expr, walk_path};
use tu_scope_rules::Context;
use tu_tree::{Amount, Expr, Path, Shown, StatementForm, Taken};

fn walk_width<'a>(width: &'a Option<Boxed<Expr>>, out: &mut Events<'a>) -> Result<(), Memory>
    ensures { OnOk result (Adds Context.Elsewhere (width_view width.now) out.old out.new) }
{
    match width {
        Some(width) => walk_expr(Context::Elsewhere, width.get(), out),
        None => Ok(()),
    }
}

fn walk_shown<'a>(shown: &'a Shown, out: &mut Events<'a>) -> Result<(), Memory>
    ensures { OnOk result (Adds Context.Elsewhere shown.now out.old out.new) }
{
    walk_expr(Context::Elsewhere, shown.value.get(), out)?;
    walk_width(&shown.width, out)?;
    Ok(())
}

fn walk_all_shown<'a>(
    first: &'a Shown,
    more: &'a Items<Shown>,
    out: &mut Events<'a>,
) -> Result<(), Memory>
    ensures { OnOk result (Adds Context.Elsewhere (listing r-shown first.now more.now) out.old out.new) }
{
    walk_shown(first, out)?;
    for x in more.as_slice() {
        walk_shown(x, out)?;
    }
    Ok(())
}

fn walk_amount<'a>(amount: &'a Amount, out: &mut Events<'a>) -> Result<(), Memory>
    ensures { OnOk result (Adds Context.Elsewhere (amount_view amount.now) out.old out.new) }
{
    match amount {
        Amount::Token | Amount::Line => Ok(()),
        Amount::Count(count) => walk_expr(Context::Elsewhere, count.get(), out),
    }
}

fn walk_taken<'a>(taken: &'a Taken, out: &mut Events<'a>) -> Result<(), Memory>
    ensures { OnOk result (Adds Context.Elsewhere taken.now out.old out.new) }
{
    walk_path(Context::Elsewhere, &taken.path, out)?;
    walk_amount(&taken.amount, out)?;
    Ok(())
}

fn walk_stream<'a>(stream: &'a Option<Boxed<Expr>>, out: &mut Events<'a>) -> Result<(), Memory>
    ensures { OnOk result (Adds Context.Elsewhere (stream_view stream.now) out.old out.new) }
{
    match stream {
        Some(stream) => walk_expr(Context::Elsewhere, stream.get(), out),
        None => Ok(()),
    }
}

fn walk_put<'a>(
    stream: &'a Option<Boxed<Expr>>,
    first: &'a Shown,
    more: &'a Items<Shown>,
    out: &mut Events<'a>,
) -> Result<(), Memory>
    ensures { OnOk result (Adds Context.Elsewhere (n-sequence (stream_view stream.now) (listing r-shown first.now more.now)) out.old out.new) }
{
    walk_stream(stream, out)?;
    walk_all_shown(first, more, out)?;
    Ok(())
}

fn walk_get<'a>(
    stream: &'a Option<Boxed<Expr>>,
    first: &'a Taken,
    more: &'a Items<Taken>,
    out: &mut Events<'a>,
) -> Result<(), Memory>
    ensures { OnOk result (Adds Context.Elsewhere (n-sequence (stream_view stream.now) (listing r-taken first.now more.now)) out.old out.new) }
{
    walk_stream(stream, out)?;
    walk_taken(first, out)?;
    for x in more.as_slice() {
        walk_taken(x, out)?;
    }
    Ok(())
}

// A path and an expression.
fn walk_change<'a>(path: &'a Path, value: &'a Expr, out: &mut Events<'a>) -> Result<(), Memory>
    ensures { OnOk result (Adds Context.Elsewhere (n-sequence path.now value.now) out.old out.new) }
{
    walk_path(Context::Elsewhere, path, out)?;
    walk_expr(Context::Elsewhere, value, out)?;
    Ok(())
}

// A collection and a pointer.
fn walk_element<'a>(
    collection: &'a Path,
    pointer: &'a Path,
    out: &mut Events<'a>,
) -> Result<(), Memory>
    ensures { OnOk result (Adds Context.Elsewhere (n-sequence collection.now pointer.now) out.old out.new) }
{
    walk_path(Context::Elsewhere, collection, out)?;
    walk_path(Context::Elsewhere, pointer, out)?;
    Ok(())
}

/// Adds the events of a statement without blocks.
pub fn walk_simple<'a>(form: &'a StatementForm, out: &mut Events<'a>) -> Result<(), Memory>
    requires { IsSimple form.now }
    ensures { OnOk result (Adds Context.Elsewhere (statement_view form.now) out.old out.new) }
{
    match form {
        StatementForm::Assign(path, value) => walk_change(path, value.get(), out),
        StatementForm::Call(path) => walk_path(Context::Elsewhere, path, out),
        StatementForm::Exit | StatementForm::Return | StatementForm::Quit => Ok(()),
        StatementForm::ExitWhen(value) => walk_expr(Context::Elsewhere, value.get(), out),
        StatementForm::Result(value) => walk_expr(Context::Elsewhere, value.get(), out),
        StatementForm::Assert(value) => walk_expr(Context::Elsewhere, value.get(), out),
        StatementForm::New(from, to) => walk_element(from, to, out),
        StatementForm::Free(from, to) => walk_element(from, to, out),
        StatementForm::Tag(path, value) => walk_change(path, value.get(), out),
        StatementForm::Put {
            stream,
            first,
            more,
            is_open: _,
        } => walk_put(stream, first, more, out),
        StatementForm::Get {
            stream,
            first,
            more,
        } => walk_get(stream, first, more, out),
        StatementForm::Open(path, name, _) => walk_change(path, name.get(), out),
        StatementForm::Close(stream) => walk_expr(Context::Elsewhere, stream.get(), out),
        StatementForm::QuitWith(number) => walk_expr(Context::Elsewhere, number.get(), out),
        StatementForm::If { .. }
        | StatementForm::Loop(..)
        | StatementForm::For { .. }
        | StatementForm::Case { .. }
        | StatementForm::Begin(_) => unreachable!(),
    }
}
