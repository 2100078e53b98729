ghost use Rattle.std.specs.Prelude.{◌≡◌, ◌+◌, ◌*◌, ◌<◌, ◌≤◌, [], ◌∷◌, Some, length, true, IfOk};
ghost use Rattle.grammar.specs.Description.{rule};
ghost use Rattle.grammar.specs.Tree.{n-sequence, n-token};
ghost use Rattle.tu_token.specs.Rules.{◌⨟◌, ◌∣◌, t, listed, maybe, body, r-expr, r-shown, r-statement, r-taken};
ghost use Rattle.tu_token.specs.declared.class.Class.TheVariants.{Name, SignColon, SignComma, SignStar, WordAssert, WordBegin, WordCase, WordClose, WordExit, WordFor, WordFree, WordGet, WordIf, WordLoop, WordNew, WordOpen, WordPut, WordQuit, WordResult, WordTag};
ghost use Rattle.tu_expr.specs.Parts.{listing};
ghost use Rattle.tu_tree.specs.StatementViews.{amount_view, mode_view, modes, statement_view, stream_view, width_view};
ghost use Rattle.tu_reader.specs.Ahead.{weight, class_of, IsNone};
ghost use Rattle.tu_reader.specs.Reads.{Reads, Sees};

use sqlite_items::{Boxed, Items};
use std::alloc::Global;
use tu_reader::{Cursor, Stop, expr, path};
use tu_tree::{Amount, Class, Expr, OpenMode, Shown, StatementForm, Taken};

/// A statement without blocks, which begins with a token of the class.
pub fn simple(
    alloc: Global,
    tokens: &mut Cursor<'_>,
    depth: u32,
    class: Class,
) -> Result<StatementForm, Stop>
    requires room { weight tokens.old + 24 ≤ depth }
    requires next { Some class ≡ class_of tokens.old.tokens }
    requires simple { IsNone class (WordIf ∷ (WordLoop ∷ (WordFor ∷ (WordCase ∷ (WordBegin ∷ []))))) }
    ensures reads { Reads (body r-statement) statement_view result tokens.old tokens.new }
    ensures less { IfOk result (λ _. weight tokens.new + 31 ≤ weight tokens.old) }
{
    match class {
        Class::Name => change(alloc, tokens, depth),
        Class::WordExit => exit(alloc, tokens, depth),
        Class::WordReturn => {
            tokens.skip(Class::WordReturn);
            Ok(StatementForm::Return)
        }
        Class::WordResult => result(alloc, tokens, depth),
        Class::WordAssert => assertion(alloc, tokens, depth),
        Class::WordNew => creation(alloc, tokens, depth),
        Class::WordFree => removal(alloc, tokens, depth),
        Class::WordTag => tagging(alloc, tokens, depth),
        Class::WordPut => put(alloc, tokens, depth),
        Class::WordGet => get(alloc, tokens, depth),
        Class::WordOpen => opening(alloc, tokens, depth),
        Class::WordClose => closing(alloc, tokens, depth),
        Class::WordQuit => quit(alloc, tokens, depth),
        _ => Err(Stop::Unexpected),
    }
}

// An assignment or a call.
fn change(alloc: Global, tokens: &mut Cursor<'_>, depth: u32) -> Result<StatementForm, Stop>
    requires room { weight tokens.old + 24 ≤ depth }
    requires seen { Sees Name tokens.old true }
    ensures reads { Reads (body r-statement) statement_view result tokens.old tokens.new }
    ensures less { IfOk result (λ _. weight tokens.new + 31 ≤ weight tokens.old) }
{
    let path = path(alloc, tokens, depth)?;
    if tokens.eat(Class::SignAssign) {
        let value = expr(alloc, tokens, depth)?;
        return Ok(StatementForm::Assign(path, Boxed::new(alloc, value)?));
    }
    Ok(StatementForm::Call(path))
}

fn exit(alloc: Global, tokens: &mut Cursor<'_>, depth: u32) -> Result<StatementForm, Stop>
    requires room { weight tokens.old + 24 ≤ depth }
    requires seen { Sees WordExit tokens.old true }
    ensures reads { Reads (body r-statement) statement_view result tokens.old tokens.new }
    ensures less { IfOk result (λ _. weight tokens.new + 31 ≤ weight tokens.old) }
{
    tokens.skip(Class::WordExit);
    if tokens.eat(Class::WordWhen) {
        let condition = expr(alloc, tokens, depth)?;
        return Ok(StatementForm::ExitWhen(Boxed::new(alloc, condition)?));
    }
    Ok(StatementForm::Exit)
}

fn result(alloc: Global, tokens: &mut Cursor<'_>, depth: u32) -> Result<StatementForm, Stop>
    requires room { weight tokens.old + 24 ≤ depth }
    requires seen { Sees WordResult tokens.old true }
    ensures reads { Reads (body r-statement) statement_view result tokens.old tokens.new }
    ensures less { IfOk result (λ _. weight tokens.new + 31 ≤ weight tokens.old) }
{
    tokens.skip(Class::WordResult);
    let value = expr(alloc, tokens, depth)?;
    Ok(StatementForm::Result(Boxed::new(alloc, value)?))
}

fn assertion(alloc: Global, tokens: &mut Cursor<'_>, depth: u32) -> Result<StatementForm, Stop>
    requires room { weight tokens.old + 24 ≤ depth }
    requires seen { Sees WordAssert tokens.old true }
    ensures reads { Reads (body r-statement) statement_view result tokens.old tokens.new }
    ensures less { IfOk result (λ _. weight tokens.new + 31 ≤ weight tokens.old) }
{
    tokens.skip(Class::WordAssert);
    let condition = expr(alloc, tokens, depth)?;
    Ok(StatementForm::Assert(Boxed::new(alloc, condition)?))
}

fn creation(alloc: Global, tokens: &mut Cursor<'_>, depth: u32) -> Result<StatementForm, Stop>
    requires room { weight tokens.old + 24 ≤ depth }
    requires seen { Sees WordNew tokens.old true }
    ensures reads { Reads (body r-statement) statement_view result tokens.old tokens.new }
    ensures less { IfOk result (λ _. weight tokens.new + 31 ≤ weight tokens.old) }
{
    tokens.skip(Class::WordNew);
    let collection = path(alloc, tokens, depth)?;
    tokens.expect(Class::SignComma)?;
    let pointer = path(alloc, tokens, depth)?;
    Ok(StatementForm::New(collection, pointer))
}

fn removal(alloc: Global, tokens: &mut Cursor<'_>, depth: u32) -> Result<StatementForm, Stop>
    requires room { weight tokens.old + 24 ≤ depth }
    requires seen { Sees WordFree tokens.old true }
    ensures reads { Reads (body r-statement) statement_view result tokens.old tokens.new }
    ensures less { IfOk result (λ _. weight tokens.new + 31 ≤ weight tokens.old) }
{
    tokens.skip(Class::WordFree);
    let collection = path(alloc, tokens, depth)?;
    tokens.expect(Class::SignComma)?;
    let pointer = path(alloc, tokens, depth)?;
    Ok(StatementForm::Free(collection, pointer))
}

fn tagging(alloc: Global, tokens: &mut Cursor<'_>, depth: u32) -> Result<StatementForm, Stop>
    requires room { weight tokens.old + 24 ≤ depth }
    requires seen { Sees WordTag tokens.old true }
    ensures reads { Reads (body r-statement) statement_view result tokens.old tokens.new }
    ensures less { IfOk result (λ _. weight tokens.new + 31 ≤ weight tokens.old) }
{
    tokens.skip(Class::WordTag);
    let path = path(alloc, tokens, depth)?;
    tokens.expect(Class::SignComma)?;
    let value = expr(alloc, tokens, depth)?;
    Ok(StatementForm::Tag(path, Boxed::new(alloc, value)?))
}

fn put(alloc: Global, tokens: &mut Cursor<'_>, depth: u32) -> Result<StatementForm, Stop>
    requires room { weight tokens.old + 24 ≤ depth }
    requires seen { Sees WordPut tokens.old true }
    ensures reads { Reads (body r-statement) statement_view result tokens.old tokens.new }
    ensures less { IfOk result (λ _. weight tokens.new + 31 ≤ weight tokens.old) }
{
    tokens.skip(Class::WordPut);
    let stream = stream(alloc, tokens, depth)?;
    let (first, more) = all_shown(alloc, tokens, depth)?;
    let is_open = tokens.eat(Class::SignRange);
    Ok(StatementForm::Put {
        stream,
        first,
        more,
        is_open,
    })
}

fn get(alloc: Global, tokens: &mut Cursor<'_>, depth: u32) -> Result<StatementForm, Stop>
    requires room { weight tokens.old + 24 ≤ depth }
    requires seen { Sees WordGet tokens.old true }
    ensures reads { Reads (body r-statement) statement_view result tokens.old tokens.new }
    ensures less { IfOk result (λ _. weight tokens.new + 31 ≤ weight tokens.old) }
{
    tokens.skip(Class::WordGet);
    let stream = stream(alloc, tokens, depth)?;
    let (first, more) = all_taken(alloc, tokens, depth)?;
    Ok(StatementForm::Get {
        stream,
        first,
        more,
    })
}

fn stream(alloc: Global, tokens: &mut Cursor<'_>, depth: u32) -> Result<Option<Boxed<Expr>>, Stop>
    requires { weight tokens.old + 1 ≤ depth }
    ensures reads { Reads (maybe (t SignColon ⨟ rule r-expr ⨟ t SignComma)) stream_view result tokens.old tokens.new }
    ensures less { IfOk result (λ _. weight tokens.new ≤ weight tokens.old) }
{
    if tokens.eat(Class::SignColon) {
        let stream = expr(alloc, tokens, depth)?;
        let stream = Boxed::new(alloc, stream)?;
        tokens.expect(Class::SignComma)?;
        return Ok(Some(stream));
    }
    Ok(None)
}

// What is put, with commas between.
fn all_shown(
    alloc: Global,
    tokens: &mut Cursor<'_>,
    depth: u32,
) -> Result<(Shown, Items<Shown>), Stop>
    requires { weight tokens.old + 25 ≤ depth }
    ensures reads { Reads (listed r-shown) (λ x. listing r-shown x.0 x.1) result tokens.old tokens.new }
    ensures less { IfOk result (λ _. weight tokens.new + 20 ≤ weight tokens.old) }
{
    let first = shown(alloc, tokens, depth)?;
    let mut more = Items::new(alloc);
    while tokens.eat(Class::SignComma) {
        let next = shown(alloc, tokens, depth)?;
        more.push(next)?;
    }
    Ok((first, more))
}

fn shown(alloc: Global, tokens: &mut Cursor<'_>, depth: u32) -> Result<Shown, Stop>
    requires { weight tokens.old + 25 ≤ depth }
    ensures reads { Reads (rule r-shown) (λ x. x) result tokens.old tokens.new }
    ensures less { IfOk result (λ _. weight tokens.new + 20 ≤ weight tokens.old) }
{
    let at = tokens.mark();
    let value = expr(alloc, tokens, depth)?;
    let value = Boxed::new(alloc, value)?;
    let width = width(alloc, tokens, depth)?;
    Ok(Shown { at, value, width })
}

fn width(alloc: Global, tokens: &mut Cursor<'_>, depth: u32) -> Result<Option<Boxed<Expr>>, Stop>
    requires { weight tokens.old + 1 ≤ depth }
    ensures reads { Reads (maybe (t SignColon ⨟ rule r-expr)) width_view result tokens.old tokens.new }
    ensures less { IfOk result (λ _. weight tokens.new ≤ weight tokens.old) }
{
    if tokens.eat(Class::SignColon) {
        let width = expr(alloc, tokens, depth)?;
        return Ok(Some(Boxed::new(alloc, width)?));
    }
    Ok(None)
}

// What is got, with commas between.
fn all_taken(
    alloc: Global,
    tokens: &mut Cursor<'_>,
    depth: u32,
) -> Result<(Taken, Items<Taken>), Stop>
    requires { weight tokens.old + 25 ≤ depth }
    ensures reads { Reads (listed r-taken) (λ x. listing r-taken x.0 x.1) result tokens.old tokens.new }
    ensures less { IfOk result (λ _. weight tokens.new + 30 ≤ weight tokens.old) }
{
    let first = taken(alloc, tokens, depth)?;
    let mut more = Items::new(alloc);
    while tokens.eat(Class::SignComma) {
        let next = taken(alloc, tokens, depth)?;
        more.push(next)?;
    }
    Ok((first, more))
}

fn taken(alloc: Global, tokens: &mut Cursor<'_>, depth: u32) -> Result<Taken, Stop>
    requires { weight tokens.old + 25 ≤ depth }
    ensures reads { Reads (rule r-taken) (λ x. x) result tokens.old tokens.new }
    ensures less { IfOk result (λ _. weight tokens.new + 30 ≤ weight tokens.old) }
{
    let at = tokens.mark();
    let path = path(alloc, tokens, depth)?;
    let amount = amount(alloc, tokens, depth)?;
    Ok(Taken { at, path, amount })
}

fn amount(alloc: Global, tokens: &mut Cursor<'_>, depth: u32) -> Result<Amount, Stop>
    requires { weight tokens.old + 1 ≤ depth }
    ensures reads { Reads (maybe (t SignColon ⨟ (t SignStar ∣ rule r-expr))) amount_view result tokens.old tokens.new }
    ensures less { IfOk result (λ _. weight tokens.new ≤ weight tokens.old) }
{
    if tokens.eat(Class::SignColon) {
        if tokens.sees(Class::SignStar) {
            tokens.skip(Class::SignStar);
            return Ok(Amount::Line);
        }
        let count = expr(alloc, tokens, depth)?;
        return Ok(Amount::Count(Boxed::new(alloc, count)?));
    }
    Ok(Amount::Token)
}

fn opening(alloc: Global, tokens: &mut Cursor<'_>, depth: u32) -> Result<StatementForm, Stop>
    requires room { weight tokens.old + 24 ≤ depth }
    requires seen { Sees WordOpen tokens.old true }
    ensures reads { Reads (body r-statement) statement_view result tokens.old tokens.new }
    ensures less { IfOk result (λ _. weight tokens.new + 31 ≤ weight tokens.old) }
{
    tokens.skip(Class::WordOpen);
    tokens.expect(Class::SignColon)?;
    let path = path(alloc, tokens, depth)?;
    tokens.expect(Class::SignComma)?;
    let (name, mode) = named_mode(alloc, tokens, depth)?;
    Ok(StatementForm::Open(path, name, mode))
}

// The name of a file, and what its stream is opened for.
fn named_mode(
    alloc: Global,
    tokens: &mut Cursor<'_>,
    depth: u32,
) -> Result<(Boxed<Expr>, OpenMode), Stop>
    requires { weight tokens.old + 24 ≤ depth }
    ensures reads { Reads (rule r-expr ⨟ (t SignComma ⨟ modes)) (λ x. n-sequence x.0 (n-sequence n-token (mode_view x.1))) result tokens.old tokens.new }
    ensures less { IfOk result (λ _. weight tokens.new ≤ weight tokens.old) }
{
    let name = expr(alloc, tokens, depth)?;
    let name = Boxed::new(alloc, name)?;
    tokens.expect(Class::SignComma)?;
    let mode = mode(tokens)?;
    Ok((name, mode))
}

fn mode(tokens: &mut Cursor<'_>) -> Result<OpenMode, Stop>
    ensures reads { Reads modes mode_view result tokens.old tokens.new }
    ensures less { IfOk result (λ _. weight tokens.new ≤ weight tokens.old) }
{
    if tokens.sees(Class::WordPut) {
        tokens.skip(Class::WordPut);
        return Ok(OpenMode::Put);
    }
    tokens.expect(Class::WordGet)?;
    Ok(OpenMode::Get)
}

fn closing(alloc: Global, tokens: &mut Cursor<'_>, depth: u32) -> Result<StatementForm, Stop>
    requires room { weight tokens.old + 24 ≤ depth }
    requires seen { Sees WordClose tokens.old true }
    ensures reads { Reads (body r-statement) statement_view result tokens.old tokens.new }
    ensures less { IfOk result (λ _. weight tokens.new + 31 ≤ weight tokens.old) }
{
    tokens.skip(Class::WordClose);
    tokens.expect(Class::SignColon)?;
    let stream = expr(alloc, tokens, depth)?;
    Ok(StatementForm::Close(Boxed::new(alloc, stream)?))
}

fn quit(alloc: Global, tokens: &mut Cursor<'_>, depth: u32) -> Result<StatementForm, Stop>
    requires room { weight tokens.old + 24 ≤ depth }
    requires seen { Sees WordQuit tokens.old true }
    ensures reads { Reads (body r-statement) statement_view result tokens.old tokens.new }
    ensures less { IfOk result (λ _. weight tokens.new + 31 ≤ weight tokens.old) }
{
    tokens.skip(Class::WordQuit);
    if tokens.eat(Class::SignColon) {
        let number = expr(alloc, tokens, depth)?;
        return Ok(StatementForm::QuitWith(Boxed::new(alloc, number)?));
    }
    Ok(StatementForm::Quit)
}
