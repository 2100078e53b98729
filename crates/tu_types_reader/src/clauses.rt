ghost use Rattle.std.specs.Prelude.{◌≡◌, ◌+◌, ◌*◌, ◌<◌, ◌≤◌, length, IfOk};
ghost use Rattle.grammar.specs.Description.{rule};
ghost use Rattle.tu_token.specs.Rules.{maybe, r-ending, r-given, r-givens, r-invariant, r-post, r-pre};
ghost use Rattle.tu_expr.specs.Parts.{optional};
ghost use Rattle.tu_reader.specs.Ahead.{weight};
ghost use Rattle.tu_reader.specs.Reads.{Reads};

use sqlite_items::{Boxed, Items};
use std::alloc::Global;
use tu_reader::{Cursor, Stop, expr};
use tu_tree::{Class, Ending, Given, Givens, Invariant, Post, Pre};

fn pre(alloc: Global, tokens: &mut Cursor<'_>, depth: u32) -> Result<Pre, Stop>
    requires { weight tokens.old + 1 ≤ depth }
    ensures reads { Reads (rule r-pre) (λ x. x) result tokens.old tokens.new }
    ensures less { IfOk result (λ _. weight tokens.new + 31 ≤ weight tokens.old) }
{
    let spot = tokens.spot();
    tokens.expect(Class::WordPre)?;
    let condition = expr(alloc, tokens, depth)?;
    let condition = Boxed::new(alloc, condition)?;
    Ok(Pre { spot, condition })
}

/// The clause that says what holds where a subprogram begins, if there is one.
pub fn optional_pre(alloc: Global, tokens: &mut Cursor<'_>, depth: u32) -> Result<Option<Pre>, Stop>
    requires { weight tokens.old + 1 ≤ depth }
    ensures reads { Reads (maybe (rule r-pre)) (optional (rule r-pre)) result tokens.old tokens.new }
    ensures less { IfOk result (λ _. weight tokens.new ≤ weight tokens.old) }
{
    if tokens.sees(Class::WordPre) {
        let clause = pre(alloc, tokens, depth)?;
        return Ok(Some(clause));
    }
    Ok(None)
}

fn post(alloc: Global, tokens: &mut Cursor<'_>, depth: u32) -> Result<Post, Stop>
    requires { weight tokens.old + 1 ≤ depth }
    ensures reads { Reads (rule r-post) (λ x. x) result tokens.old tokens.new }
    ensures less { IfOk result (λ _. weight tokens.new + 31 ≤ weight tokens.old) }
{
    let spot = tokens.spot();
    tokens.expect(Class::WordPost)?;
    let condition = expr(alloc, tokens, depth)?;
    let condition = Boxed::new(alloc, condition)?;
    Ok(Post { spot, condition })
}

/// The clause that says what holds where a subprogram ends, if there is one.
pub fn optional_post(
    alloc: Global,
    tokens: &mut Cursor<'_>,
    depth: u32,
) -> Result<Option<Post>, Stop>
    requires { weight tokens.old + 1 ≤ depth }
    ensures reads { Reads (maybe (rule r-post)) (optional (rule r-post)) result tokens.old tokens.new }
    ensures less { IfOk result (λ _. weight tokens.new ≤ weight tokens.old) }
{
    if tokens.sees(Class::WordPost) {
        let clause = post(alloc, tokens, depth)?;
        return Ok(Some(clause));
    }
    Ok(None)
}

/// The clause that says what holds at each turn, or around each call.
pub fn invariant(alloc: Global, tokens: &mut Cursor<'_>, depth: u32) -> Result<Invariant, Stop>
    requires { weight tokens.old + 1 ≤ depth }
    ensures reads { Reads (rule r-invariant) (λ x. x) result tokens.old tokens.new }
    ensures less { IfOk result (λ _. weight tokens.new + 31 ≤ weight tokens.old) }
{
    let spot = tokens.spot();
    tokens.expect(Class::WordInvariant)?;
    let condition = expr(alloc, tokens, depth)?;
    let condition = Boxed::new(alloc, condition)?;
    Ok(Invariant { spot, condition })
}

/// The clause that says what holds at each turn, or around each call, if there is one.
pub fn optional_invariant(
    alloc: Global,
    tokens: &mut Cursor<'_>,
    depth: u32,
) -> Result<Option<Invariant>, Stop>
    requires { weight tokens.old + 1 ≤ depth }
    ensures reads { Reads (maybe (rule r-invariant)) (optional (rule r-invariant)) result tokens.old tokens.new }
    ensures less { IfOk result (λ _. weight tokens.new ≤ weight tokens.old) }
{
    if tokens.sees(Class::WordInvariant) {
        let clause = invariant(alloc, tokens, depth)?;
        return Ok(Some(clause));
    }
    Ok(None)
}

fn givens(alloc: Global, tokens: &mut Cursor<'_>, depth: u32) -> Result<Givens, Stop>
    requires { weight tokens.old + 1 ≤ depth }
    ensures reads { Reads (rule r-givens) (λ x. x) result tokens.old tokens.new }
    ensures less { IfOk result (λ _. weight tokens.new + 31 ≤ weight tokens.old) }
{
    let spot = tokens.spot();
    tokens.expect(Class::WordInit)?;
    let first = given(alloc, tokens, depth)?;
    let mut more = Items::new(alloc);
    while tokens.eat(Class::SignComma) {
        let next = given(alloc, tokens, depth)?;
        more.push(next)?;
    }
    Ok(Givens { spot, first, more })
}

fn given(alloc: Global, tokens: &mut Cursor<'_>, depth: u32) -> Result<Given, Stop>
    requires { weight tokens.old + 1 ≤ depth }
    ensures reads { Reads (rule r-given) (λ x. x) result tokens.old tokens.new }
    ensures less { IfOk result (λ _. weight tokens.new + 31 ≤ weight tokens.old) }
{
    let at = tokens.mark();
    let name = tokens.leaf(alloc, Class::Name)?;
    tokens.expect(Class::SignAssign)?;
    let value = expr(alloc, tokens, depth)?;
    let value = Boxed::new(alloc, value)?;
    Ok(Given { at, name, value })
}

/// Names for values that a subprogram begins with, if there are any.
pub fn optional_givens(
    alloc: Global,
    tokens: &mut Cursor<'_>,
    depth: u32,
) -> Result<Option<Givens>, Stop>
    requires { weight tokens.old + 1 ≤ depth }
    ensures reads { Reads (maybe (rule r-givens)) (optional (rule r-givens)) result tokens.old tokens.new }
    ensures less { IfOk result (λ _. weight tokens.new ≤ weight tokens.old) }
{
    if tokens.sees(Class::WordInit) {
        let clause = givens(alloc, tokens, depth)?;
        return Ok(Some(clause));
    }
    Ok(None)
}

/// The end of a subprogram or module.
pub fn ending(alloc: Global, tokens: &mut Cursor<'_>) -> Result<Ending, Stop>
    ensures reads { Reads (rule r-ending) (λ x. x) result tokens.old tokens.new }
    ensures less { IfOk result (λ _. weight tokens.new + 31 ≤ weight tokens.old) }
{
    let spot = tokens.spot();
    tokens.expect(Class::WordEnd)?;
    let name = tokens.leaf(alloc, Class::Name)?;
    Ok(Ending { spot, name })
}
