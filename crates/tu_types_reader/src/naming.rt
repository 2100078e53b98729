ghost use Rattle.std.specs.Prelude.{◌≡◌, ◌+◌, ◌*◌, ◌<◌, ◌≤◌, length, IfOk};
ghost use Rattle.grammar.specs.Description.{rule};
ghost use Rattle.tu_token.specs.Rules.{t, maybe, ◌⨟◌, r-name, r-names};
ghost use Rattle.tu_token.specs.declared.class.Class.TheVariants.{Name as the_name, SignDot};
ghost use Rattle.tu_tree.specs.TypeViews.{member_view, tag_view};
ghost use Rattle.tu_reader.specs.Ahead.{weight};
ghost use Rattle.tu_reader.specs.Reads.{Reads};

use sqlite_items::Items;
use std::alloc::Global;
use tu_reader::{Cursor, Stop};
use tu_tree::{Class, Leaf, Name, Names};

/// A name, or that of a module and one of its names.
pub fn name(alloc: Global, tokens: &mut Cursor<'_>) -> Result<Name, Stop>
    requires { tokens.old.number < 4294967295 }
    ensures reads { Reads (rule r-name) (λ x. x) result tokens.old tokens.new }
    ensures less { IfOk result (λ _. weight tokens.new + 31 ≤ weight tokens.old) }
{
    let at = tokens.mark();
    let first = tokens.leaf(alloc, Class::Name)?;
    let second = member(alloc, tokens)?;
    Ok(Name { at, first, second })
}

fn member(alloc: Global, tokens: &mut Cursor<'_>) -> Result<Option<Leaf>, Stop>
    ensures reads { Reads (maybe (t SignDot ⨟ t the_name)) member_view result tokens.old tokens.new }
    ensures less { IfOk result (λ _. weight tokens.new ≤ weight tokens.old) }
{
    if tokens.eat(Class::SignDot) {
        let name = tokens.leaf(alloc, Class::Name)?;
        return Ok(Some(name));
    }
    Ok(None)
}

/// Names with commas between.
pub fn names(alloc: Global, tokens: &mut Cursor<'_>) -> Result<Names, Stop>
    requires { tokens.old.number < 4294967295 }
    ensures reads { Reads (rule r-names) (λ x. x) result tokens.old tokens.new }
    ensures less { IfOk result (λ _. weight tokens.new + 31 ≤ weight tokens.old) }
{
    let at = tokens.mark();
    let first = tokens.leaf(alloc, Class::Name)?;
    let mut more = Items::new(alloc);
    while tokens.eat(Class::SignComma) {
        let next = tokens.leaf(alloc, Class::Name)?;
        more.push(next)?;
    }
    Ok(Names { at, first, more })
}

/// A name, where one is next.
pub fn optional_name(alloc: Global, tokens: &mut Cursor<'_>) -> Result<Option<Leaf>, Stop>
    ensures reads { Reads (maybe (t the_name)) tag_view result tokens.old tokens.new }
    ensures less { IfOk result (λ _. weight tokens.new ≤ weight tokens.old) }
{
    if tokens.sees(Class::Name) {
        let name = tokens.leaf(alloc, Class::Name)?;
        return Ok(Some(name));
    }
    Ok(None)
}
