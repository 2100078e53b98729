ghost use Rattle.std.specs.Prelude.{◌≡◌, ◌+◌, ◌*◌, ◌<◌, ◌≤◌, length, true, IfOk};
ghost use Rattle.grammar.specs.Description.{rule};
ghost use Rattle.grammar.specs.Tree.{n-sequence, n-token};
ghost use Rattle.tu_token.specs.Rules.{◌⨟◌, ◌∣◌, t, maybe, listed, body, r-block, r-ending, r-formal, r-formals, r-handler, r-head, r-rest, r-spec, r-subprogram};
ghost use Rattle.tu_token.specs.declared.class.Class.TheVariants.{Name, SignColon, SignRightBracket, WordBody, WordForward, WordFunction, WordProcedure};
ghost use Rattle.tu_expr.specs.Parts.{any_listing, optional};
ghost use Rattle.tu_tree.specs.TypeViews.{tag_view};
ghost use Rattle.tu_tree.specs.SubprogramViews.{head_view, kind_view, subprogram_view};
ghost use Rattle.tu_reader.specs.Ahead.{weight};
ghost use Rattle.tu_reader.specs.Reads.{Reads, Sees};

use crate::blocks::block;
use sqlite_items::Items;
use std::alloc::Global;
use tu_base::Held;
use tu_reader::{Cursor, Stop};
use tu_tree::{
    Block, Class, Ending, Formal, Formals, Handler, Head, HeadForm, Leaf, Rest, Spec, Subprogram,
    SubprogramForm, SubprogramKind,
};
use tu_types_reader::{
    ending, names, optional_givens, optional_import, optional_name, optional_post, optional_pre,
    spec,
};

/// A subprogram, or its head or body alone.
pub fn subprogram(alloc: Global, tokens: &mut Cursor<'_>, depth: u32) -> Result<Subprogram, Stop>
    requires { weight tokens.old + 2 ≤ depth }
    ensures reads { Reads (rule r-subprogram) (λ x. x) result tokens.old tokens.new }
    ensures less { IfOk result (λ _. weight tokens.new + 30 ≤ weight tokens.old) }
{
    let at = tokens.mark();
    let form = subprogram_form(alloc, tokens, depth)?;
    Ok(Subprogram { at, form })
}

fn subprogram_form(
    alloc: Global,
    tokens: &mut Cursor<'_>,
    depth: u32,
) -> Result<SubprogramForm, Stop>
    requires { weight tokens.old + 1 ≤ depth }
    ensures reads { Reads (body r-subprogram) subprogram_view result tokens.old tokens.new }
    ensures less { IfOk result (λ _. weight tokens.new + 31 ≤ weight tokens.old) }
{
    if tokens.sees(Class::WordForward) {
        return forward(alloc, tokens, depth);
    }
    if tokens.sees(Class::WordBody) {
        return body_alone(alloc, tokens, depth);
    }
    let head = head(alloc, tokens, depth)?;
    let head = Held::new(head);
    let import = optional_import(alloc, tokens)?;
    let rest = rest(alloc, tokens, depth)?;
    let head = head.into_inner();
    Ok(SubprogramForm::Whole(head, import, rest))
}

fn forward(alloc: Global, tokens: &mut Cursor<'_>, depth: u32) -> Result<SubprogramForm, Stop>
    requires room { weight tokens.old + 1 ≤ depth }
    requires seen { Sees WordForward tokens.old true }
    ensures reads { Reads (body r-subprogram) subprogram_view result tokens.old tokens.new }
    ensures less { IfOk result (λ _. weight tokens.new + 31 ≤ weight tokens.old) }
{
    tokens.skip(Class::WordForward);
    let head = head(alloc, tokens, depth)?;
    let head = Held::new(head);
    let import = optional_import(alloc, tokens)?;
    let head = head.into_inner();
    Ok(SubprogramForm::Forward(head, import))
}

fn body_alone(alloc: Global, tokens: &mut Cursor<'_>, depth: u32) -> Result<SubprogramForm, Stop>
    requires room { weight tokens.old + 1 ≤ depth }
    requires seen { Sees WordBody tokens.old true }
    ensures reads { Reads (body r-subprogram) subprogram_view result tokens.old tokens.new }
    ensures less { IfOk result (λ _. weight tokens.new + 31 ≤ weight tokens.old) }
{
    tokens.skip(Class::WordBody);
    let kind = kind(tokens)?;
    let name = tokens.leaf(alloc, Class::Name)?;
    let rest = rest(alloc, tokens, depth)?;
    Ok(SubprogramForm::Body(kind, name, rest))
}

fn kind(tokens: &mut Cursor<'_>) -> Result<SubprogramKind, Stop>
    ensures reads { Reads (t WordProcedure ∣ t WordFunction) kind_view result tokens.old tokens.new }
    ensures less { IfOk result (λ _. weight tokens.new ≤ weight tokens.old) }
{
    if tokens.sees(Class::WordProcedure) {
        tokens.skip(Class::WordProcedure);
        return Ok(SubprogramKind::Procedure);
    }
    tokens.expect(Class::WordFunction)?;
    Ok(SubprogramKind::Function)
}

fn head(alloc: Global, tokens: &mut Cursor<'_>, depth: u32) -> Result<Head, Stop>
    requires { weight tokens.old + 1 ≤ depth }
    ensures reads { Reads (rule r-head) (λ x. x) result tokens.old tokens.new }
    ensures less { IfOk result (λ _. weight tokens.new + 31 ≤ weight tokens.old) }
{
    let at = tokens.mark();
    let form = head_form(alloc, tokens, depth)?;
    Ok(Head { at, form })
}

fn head_form(alloc: Global, tokens: &mut Cursor<'_>, depth: u32) -> Result<HeadForm, Stop>
    requires { weight tokens.old ≤ depth }
    ensures reads { Reads (body r-head) head_view result tokens.old tokens.new }
    ensures less { IfOk result (λ _. weight tokens.new + 32 ≤ weight tokens.old) }
{
    if tokens.sees(Class::WordProcedure) {
        tokens.skip(Class::WordProcedure);
        let name = tokens.leaf(alloc, Class::Name)?;
        let formals = optional_formals(alloc, tokens, depth)?;
        return Ok(HeadForm::Procedure(name, formals));
    }
    tokens.expect(Class::WordFunction)?;
    let name = tokens.leaf(alloc, Class::Name)?;
    let formals = optional_formals(alloc, tokens, depth)?;
    let (result, spec) = result_type(alloc, tokens, depth)?;
    Ok(HeadForm::Function {
        name,
        formals,
        result,
        spec,
    })
}

// The name of a function's result, if it has one, and the type.
fn result_type(
    alloc: Global,
    tokens: &mut Cursor<'_>,
    depth: u32,
) -> Result<(Option<Leaf>, Spec), Stop>
    requires { weight tokens.old ≤ depth }
    ensures reads { Reads (maybe (t Name) ⨟ (t SignColon ⨟ rule r-spec)) (λ x. n-sequence (tag_view x.0) (n-sequence n-token x.1)) result tokens.old tokens.new }
    ensures less { IfOk result (λ _. weight tokens.new ≤ weight tokens.old) }
{
    let result = optional_name(alloc, tokens)?;
    tokens.expect(Class::SignColon)?;
    let spec = spec(alloc, tokens, depth)?;
    Ok((result, spec))
}

fn optional_formals(
    alloc: Global,
    tokens: &mut Cursor<'_>,
    depth: u32,
) -> Result<Option<Formals>, Stop>
    requires { weight tokens.old + 1 ≤ depth }
    ensures reads { Reads (maybe (rule r-formals)) (optional (rule r-formals)) result tokens.old tokens.new }
    ensures less { IfOk result (λ _. weight tokens.new ≤ weight tokens.old) }
{
    if tokens.sees(Class::SignLeftBracket) {
        let formals = formals(alloc, tokens, depth)?;
        return Ok(Some(formals));
    }
    Ok(None)
}

fn formals(alloc: Global, tokens: &mut Cursor<'_>, depth: u32) -> Result<Formals, Stop>
    requires { weight tokens.old + 1 ≤ depth }
    ensures reads { Reads (rule r-formals) (λ x. x) result tokens.old tokens.new }
    ensures less { IfOk result (λ _. weight tokens.new + 31 ≤ weight tokens.old) }
{
    let at = tokens.mark();
    tokens.expect(Class::SignLeftBracket)?;
    let items = formal_items(alloc, tokens, depth)?;
    Ok(Formals { at, items })
}

// Any number of parameters, and the bracket behind them.
fn formal_items(alloc: Global, tokens: &mut Cursor<'_>, depth: u32) -> Result<Items<Formal>, Stop>
    requires { weight tokens.old + 2 ≤ depth }
    ensures reads { Reads (maybe (listed r-formal) ⨟ t SignRightBracket) (λ items. n-sequence (any_listing r-formal items) n-token) result tokens.old tokens.new }
    ensures less { IfOk result (λ _. weight tokens.new ≤ weight tokens.old) }
{
    let mut items = Items::new(alloc);
    if tokens.sees(Class::SignRightBracket) {
        tokens.skip(Class::SignRightBracket);
        return Ok(items);
    }
    let first = formal(alloc, tokens, depth)?;
    items.push(first)?;
    while tokens.eat(Class::SignComma) {
        let next = formal(alloc, tokens, depth)?;
        items.push(next)?;
    }
    tokens.expect(Class::SignRightBracket)?;
    Ok(items)
}

fn formal(alloc: Global, tokens: &mut Cursor<'_>, depth: u32) -> Result<Formal, Stop>
    requires { weight tokens.old + 2 ≤ depth }
    ensures reads { Reads (rule r-formal) (λ x. x) result tokens.old tokens.new }
    ensures less { IfOk result (λ _. weight tokens.new + 30 ≤ weight tokens.old) }
{
    let at = tokens.mark();
    let is_var = tokens.eat(Class::WordVar);
    let names = names(alloc, tokens)?;
    tokens.expect(Class::SignColon)?;
    let spec = spec(alloc, tokens, depth)?;
    Ok(Formal {
        at,
        is_var,
        names,
        spec,
    })
}

fn handler(alloc: Global, tokens: &mut Cursor<'_>, depth: u32) -> Result<Handler, Stop>
    requires { weight tokens.old + 30 ≤ depth }
    ensures reads { Reads (rule r-handler) (λ x. x) result tokens.old tokens.new }
    ensures less { IfOk result (λ _. weight tokens.new + 31 ≤ weight tokens.old) }
{
    let spot = tokens.spot();
    tokens.expect(Class::WordHandler)?;
    tokens.expect(Class::SignLeftBracket)?;
    let name = tokens.leaf(alloc, Class::Name)?;
    tokens.expect(Class::SignRightBracket)?;
    let block = block(alloc, tokens, depth)?;
    tokens.end(Class::WordHandler)?;
    Ok(Handler { spot, name, block })
}

fn optional_handler(
    alloc: Global,
    tokens: &mut Cursor<'_>,
    depth: u32,
) -> Result<Option<Handler>, Stop>
    requires { weight tokens.old + 30 ≤ depth }
    ensures reads { Reads (maybe (rule r-handler)) (optional (rule r-handler)) result tokens.old tokens.new }
    ensures less { IfOk result (λ _. weight tokens.new ≤ weight tokens.old) }
{
    if tokens.sees(Class::WordHandler) {
        let handler = handler(alloc, tokens, depth)?;
        return Ok(Some(handler));
    }
    Ok(None)
}

// A body, and the end of its subprogram.
fn body(alloc: Global, tokens: &mut Cursor<'_>, depth: u32) -> Result<(Block, Ending), Stop>
    requires { weight tokens.old + 28 ≤ depth }
    ensures reads { Reads (rule r-block ⨟ rule r-ending) (λ x. n-sequence x.0 x.1) result tokens.old tokens.new }
    ensures less { IfOk result (λ _. weight tokens.new + 30 ≤ weight tokens.old) }
{
    let block = block(alloc, tokens, depth)?;
    let ending = ending(alloc, tokens)?;
    Ok((block, ending))
}

// The handler, if there is one, and what stands behind it.
fn handled_body(
    alloc: Global,
    tokens: &mut Cursor<'_>,
    depth: u32,
) -> Result<(Option<Handler>, (Block, Ending)), Stop>
    requires { weight tokens.old + 30 ≤ depth }
    ensures reads { Reads (maybe (rule r-handler) ⨟ (rule r-block ⨟ rule r-ending)) (λ x. n-sequence (optional (rule r-handler) x.0) (n-sequence x.1.0 x.1.1)) result tokens.old tokens.new }
    ensures less { IfOk result (λ _. weight tokens.new + 30 ≤ weight tokens.old) }
{
    let handler = optional_handler(alloc, tokens, depth)?;
    let body = body(alloc, tokens, depth)?;
    Ok((handler, body))
}

fn rest(alloc: Global, tokens: &mut Cursor<'_>, depth: u32) -> Result<Rest, Stop>
    requires { weight tokens.old + 31 ≤ depth }
    ensures reads { Reads (rule r-rest) (λ x. x) result tokens.old tokens.new }
    ensures less { IfOk result (λ _. weight tokens.new ≤ weight tokens.old) }
{
    let at = tokens.mark();
    let pre = optional_pre(alloc, tokens, depth)?;
    let givens = optional_givens(alloc, tokens, depth)?;
    let givens = Held::new(givens);
    let post = optional_post(alloc, tokens, depth)?;
    let (handler, body) = handled_body(alloc, tokens, depth)?;
    let (block, ending) = body;
    let givens = givens.into_inner();
    Ok(Rest {
        at,
        pre,
        givens,
        post,
        handler,
        block,
        ending,
    })
}
