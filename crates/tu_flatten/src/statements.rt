// Statements without blocks.
ghost use Rattle.std.specs.Prelude.{IfOk};
ghost use Rattle.grammar.specs.Tree.{n-sequence};
ghost use Rattle.tu_token.specs.declared.class.Class.TheVariants.{SignComma};
ghost use Rattle.tu_token.specs.Rules.{r-shown, r-taken};
ghost use Rattle.tu_expr.specs.Parts.{listing};
ghost use Rattle.tu_tree.specs.StatementViews.{amount_view, mode_view, statement_view, stream_view, width_view};
ghost use Rattle.tu_flatten.specs.Statements.{IsSimple};
ghost use Rattle.tu_flatten_parts.specs.Writes.{Writes, word};

use sqlite_items::{Boxed, Items};
use tu_base::Memory;
use tu_flatten_parts::{Pieces, write_expr, write_path};
use tu_tree::{Amount, Class, Expr, OpenMode, Path, Shown, StatementForm, Taken};

fn write_width(width: &Option<Boxed<Expr>>, out: &mut Pieces) -> Result<(), Memory>
    ensures { IfOk result (λ _. Writes (width_view width.now) out.old out.new) }
{
    match width {
        Some(width) => {
            out.word(Class::SignColon)?;
            write_expr(width.get(), out)
        }
        None => Ok(()),
    }
}

fn write_shown(shown: &Shown, out: &mut Pieces) -> Result<(), Memory>
    ensures { IfOk result (λ _. Writes shown.now out.old out.new) }
{
    write_expr(shown.value.get(), out)?;
    write_width(&shown.width, out)?;
    Ok(())
}

fn write_all_shown(first: &Shown, more: &Items<Shown>, out: &mut Pieces) -> Result<(), Memory>
    ensures { IfOk result (λ _. Writes (listing r-shown first.now more.now) out.old out.new) }
{
    write_shown(first, out)?;
    for x in more.as_slice() {
        out.word(Class::SignComma)?;
        write_shown(x, out)?;
    }
    Ok(())
}

fn write_amount(amount: &Amount, out: &mut Pieces) -> Result<(), Memory>
    ensures { IfOk result (λ _. Writes (amount_view amount.now) out.old out.new) }
{
    match amount {
        Amount::Token => Ok(()),
        Amount::Line => {
            out.word(Class::SignColon)?;
            out.word(Class::SignStar)
        }
        Amount::Count(count) => {
            out.word(Class::SignColon)?;
            write_expr(count.get(), out)
        }
    }
}

fn write_taken(taken: &Taken, out: &mut Pieces) -> Result<(), Memory>
    ensures { IfOk result (λ _. Writes taken.now out.old out.new) }
{
    write_path(&taken.path, out)?;
    write_amount(&taken.amount, out)?;
    Ok(())
}

fn write_all_taken(first: &Taken, more: &Items<Taken>, out: &mut Pieces) -> Result<(), Memory>
    ensures { IfOk result (λ _. Writes (listing r-taken first.now more.now) out.old out.new) }
{
    write_taken(first, out)?;
    for x in more.as_slice() {
        out.word(Class::SignComma)?;
        write_taken(x, out)?;
    }
    Ok(())
}

fn write_stream(stream: &Option<Boxed<Expr>>, out: &mut Pieces) -> Result<(), Memory>
    ensures { IfOk result (λ _. Writes (stream_view stream.now) out.old out.new) }
{
    match stream {
        Some(stream) => {
            out.word(Class::SignColon)?;
            write_expr(stream.get(), out)?;
            out.word(Class::SignComma)
        }
        None => Ok(()),
    }
}

fn write_mode(mode: OpenMode, out: &mut Pieces) -> Result<(), Memory>
    ensures { IfOk result (λ _. Writes (mode_view mode) out.old out.new) }
{
    match mode {
        OpenMode::Put => out.word(Class::WordPut),
        OpenMode::Get => out.word(Class::WordGet),
    }
}

fn write_put(
    stream: &Option<Boxed<Expr>>,
    first: &Shown,
    more: &Items<Shown>,
    is_open: bool,
    out: &mut Pieces,
) -> Result<(), Memory>
    ensures { IfOk result (λ _. Writes (statement_view (StatementForm.Put stream.now first.now more.now is_open)) out.old out.new) }
{
    out.word(Class::WordPut)?;
    write_stream(stream, out)?;
    write_all_shown(first, more, out)?;
    out.flag(Class::SignRange, is_open)?;
    Ok(())
}

fn write_get(
    stream: &Option<Boxed<Expr>>,
    first: &Taken,
    more: &Items<Taken>,
    out: &mut Pieces,
) -> Result<(), Memory>
    ensures { IfOk result (λ _. Writes (statement_view (StatementForm.Get stream.now first.now more.now)) out.old out.new) }
{
    out.word(Class::WordGet)?;
    write_stream(stream, out)?;
    write_all_taken(first, more, out)?;
    Ok(())
}

fn write_open(path: &Path, name: &Expr, mode: OpenMode, out: &mut Pieces) -> Result<(), Memory>
    ensures { IfOk result (λ _. Writes (statement_view (StatementForm.Open path.now name.now mode)) out.old out.new) }
{
    out.word(Class::WordOpen)?;
    out.word(Class::SignColon)?;
    write_path(path, out)?;
    out.word(Class::SignComma)?;
    write_expr(name, out)?;
    out.word(Class::SignComma)?;
    write_mode(mode, out)?;
    Ok(())
}

fn write_close(stream: &Expr, out: &mut Pieces) -> Result<(), Memory>
    ensures { IfOk result (λ _. Writes (statement_view (StatementForm.Close stream.now)) out.old out.new) }
{
    out.word(Class::WordClose)?;
    out.word(Class::SignColon)?;
    write_expr(stream, out)?;
    Ok(())
}

fn write_quit_with(number: &Expr, out: &mut Pieces) -> Result<(), Memory>
    ensures { IfOk result (λ _. Writes (statement_view (StatementForm.QuitWith number.now)) out.old out.new) }
{
    out.word(Class::WordQuit)?;
    out.word(Class::SignColon)?;
    write_expr(number, out)?;
    Ok(())
}

fn write_tag_change(path: &Path, value: &Expr, out: &mut Pieces) -> Result<(), Memory>
    ensures { IfOk result (λ _. Writes (statement_view (StatementForm.Tag path.now value.now)) out.old out.new) }
{
    out.word(Class::WordTag)?;
    write_path(path, out)?;
    out.word(Class::SignComma)?;
    write_expr(value, out)?;
    Ok(())
}

fn write_assign(path: &Path, value: &Expr, out: &mut Pieces) -> Result<(), Memory>
    ensures { IfOk result (λ _. Writes (statement_view (StatementForm.Assign path.now value.now)) out.old out.new) }
{
    write_path(path, out)?;
    out.word(Class::SignAssign)?;
    write_expr(value, out)?;
    Ok(())
}

fn write_exit_when(condition: &Expr, out: &mut Pieces) -> Result<(), Memory>
    ensures { IfOk result (λ _. Writes (statement_view (StatementForm.ExitWhen condition.now)) out.old out.new) }
{
    out.word(Class::WordExit)?;
    out.word(Class::WordWhen)?;
    write_expr(condition, out)?;
    Ok(())
}

// A word and an expression.
fn write_with_value(class: Class, value: &Expr, out: &mut Pieces) -> Result<(), Memory>
    ensures { IfOk result (λ _. Writes (n-sequence (word class) value.now) out.old out.new) }
{
    out.word(class)?;
    write_expr(value, out)?;
    Ok(())
}

// A word, a collection and a pointer.
fn write_element(
    class: Class,
    collection: &Path,
    pointer: &Path,
    out: &mut Pieces,
) -> Result<(), Memory>
    ensures { IfOk result (λ _. Writes (n-sequence (word class) (n-sequence collection.now (n-sequence (word SignComma) pointer.now))) out.old out.new) }
{
    out.word(class)?;
    write_path(collection, out)?;
    out.word(Class::SignComma)?;
    write_path(pointer, out)?;
    Ok(())
}

/// Adds a statement without blocks.
pub fn write_simple(form: &StatementForm, out: &mut Pieces) -> Result<(), Memory>
    requires { IsSimple form.now }
    ensures { IfOk result (λ _. Writes (statement_view form.now) out.old out.new) }
{
    match form {
        StatementForm::Assign(path, value) => write_assign(path, value.get(), out),
        StatementForm::Call(path) => write_path(path, out),
        StatementForm::Exit => out.word(Class::WordExit),
        StatementForm::ExitWhen(condition) => write_exit_when(condition.get(), out),
        StatementForm::Return => out.word(Class::WordReturn),
        StatementForm::Result(value) => write_with_value(Class::WordResult, value.get(), out),
        StatementForm::Assert(value) => write_with_value(Class::WordAssert, value.get(), out),
        StatementForm::New(from, to) => write_element(Class::WordNew, from, to, out),
        StatementForm::Free(from, to) => write_element(Class::WordFree, from, to, out),
        StatementForm::Tag(path, value) => write_tag_change(path, value.get(), out),
        StatementForm::Put {
            stream,
            first,
            more,
            is_open,
        } => write_put(stream, first, more, *is_open, out),
        StatementForm::Get {
            stream,
            first,
            more,
        } => write_get(stream, first, more, out),
        StatementForm::Open(path, name, mode) => write_open(path, name.get(), *mode, out),
        StatementForm::Close(stream) => write_close(stream.get(), out),
        StatementForm::Quit => out.word(Class::WordQuit),
        StatementForm::QuitWith(number) => write_quit_with(number.get(), out),
        StatementForm::If { .. }
        | StatementForm::Loop(..)
        | StatementForm::For { .. }
        | StatementForm::Case { .. }
        | StatementForm::Begin(_) => unreachable!(),
    }
}
