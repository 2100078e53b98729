ghost use Rattle.std.specs.Prelude.{◌≡◌, ◌+◌, ◌*◌, ◌<◌, ◌≤◌, length, IfOk};
ghost use Rattle.grammar.specs.Description.{rule};
ghost use Rattle.tu_token.specs.Rules.{◌∣◌, body, r-any, r-expr, r-index, r-range};
ghost use Rattle.tu_expr.specs.Parts.{mark_of};
ghost use Rattle.tu_tree.specs.TypeViews.{index_view, range_view};
ghost use Rattle.tu_reader.specs.Ahead.{weight};
ghost use Rattle.tu_reader.specs.Reads.{Reads};
ghost use Rattle.tu_types_reader.specs.Shortened.{Shortens};

use crate::shortened::name_of;
use sqlite_items::Boxed;
use std::alloc::Global;
use tu_reader::{Cursor, Stop, expr};
use tu_tree::{Class, Expr, Index, IndexForm, Name, Range, RangeForm};

// The name that an expression before is, with the number that it has as a name.
fn shortened(alloc: Global, tokens: &mut Cursor<'_>, from: Expr) -> Result<Name, Stop>
    requires { (mark_of from).number < 4294967295 }
    ensures { Shortens from result tokens.old tokens.new }
{
    let number = from.at.number;
    let name = name_of(alloc, &from);
    drop(from);
    match name? {
        Some(name) => {
            tokens.renumber(number + 1);
            Ok(name)
        }
        None => Err(Stop::Unexpected),
    }
}

/// A range.
pub fn range(alloc: Global, tokens: &mut Cursor<'_>, depth: u32) -> Result<Range, Stop>
    requires { weight tokens.old + 25 ≤ depth }
    ensures reads { Reads (rule r-range) (λ x. x) result tokens.old tokens.new }
    ensures less { IfOk result (λ _. weight tokens.new + 20 ≤ weight tokens.old) }
{
    let at = tokens.mark();
    let form = range_form(alloc, tokens, depth)?;
    Ok(Range { at, form })
}

fn range_form(alloc: Global, tokens: &mut Cursor<'_>, depth: u32) -> Result<RangeForm, Stop>
    requires { weight tokens.old + 24 ≤ depth }
    ensures reads { Reads (body r-range) range_view result tokens.old tokens.new }
    ensures less { IfOk result (λ _. weight tokens.new + 21 ≤ weight tokens.old) }
{
    let from = expr(alloc, tokens, depth)?;
    if tokens.sees(Class::SignRange) {
        tokens.skip(Class::SignRange);
        let from = Boxed::new(alloc, from)?;
        let to = expr(alloc, tokens, depth)?;
        let to = Boxed::new(alloc, to)?;
        return Ok(RangeForm::Bounds(from, to));
    }
    let name = shortened(alloc, tokens, from)?;
    Ok(RangeForm::Named(name))
}

/// The subscripts of a dimension.
pub fn index(alloc: Global, tokens: &mut Cursor<'_>, depth: u32) -> Result<Index, Stop>
    requires { weight tokens.old + 25 ≤ depth }
    ensures reads { Reads (rule r-index) (λ x. x) result tokens.old tokens.new }
    ensures less { IfOk result (λ _. weight tokens.new + 20 ≤ weight tokens.old) }
{
    let at = tokens.mark();
    let form = index_form(alloc, tokens, depth)?;
    Ok(Index { at, form })
}

fn index_form(alloc: Global, tokens: &mut Cursor<'_>, depth: u32) -> Result<IndexForm, Stop>
    requires { weight tokens.old + 24 ≤ depth }
    ensures reads { Reads (body r-index) index_view result tokens.old tokens.new }
    ensures less { IfOk result (λ _. weight tokens.new + 21 ≤ weight tokens.old) }
{
    let from = expr(alloc, tokens, depth)?;
    if tokens.sees(Class::SignRange) {
        tokens.skip(Class::SignRange);
        let from = Boxed::new(alloc, from)?;
        if tokens.sees(Class::SignStar) {
            let star = tokens.spot();
            tokens.skip(Class::SignStar);
            return Ok(IndexForm::Open(from, star));
        }
        let to = expr(alloc, tokens, depth)?;
        let to = Boxed::new(alloc, to)?;
        return Ok(IndexForm::Bounds(from, to));
    }
    let name = shortened(alloc, tokens, from)?;
    Ok(IndexForm::Named(name))
}
