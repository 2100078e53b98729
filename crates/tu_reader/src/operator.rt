ghost use Rattle.std.specs.Prelude.{◌≡◌, ◌+◌, ◌*◌, ◌<◌, ◌≤◌, length, IfOk, MatchOption};
ghost use Rattle.grammar.specs.Description.{rule};
ghost use Rattle.tu_token.specs.Rules.{body, r-relation};
ghost use Rattle.tu_expr.specs.Views.{relation_view, signs, sign_view, multiplications, multiplication_view};
ghost use Rattle.tu_reader.specs.Ahead.{weight};
ghost use Rattle.tu_reader.specs.Kinds.{relation_of, begins_relation};
ghost use Rattle.tu_reader.specs.Reads.{Reads, Offers, Begins};

use crate::{Cursor, Stop};
use tu_expr::{Multiplication, Relation, RelationKind, Sign};
use tu_token::Class;

// The relation that a single token is.
fn relation_of(class: Class) -> Option<RelationKind>
    ensures { result ≡ relation_of class }
{
    match class {
        Class::SignEqual => Some(RelationKind::Equal),
        Class::SignNotEqual => Some(RelationKind::NotEqual),
        Class::SignLess => Some(RelationKind::Less),
        Class::SignGreater => Some(RelationKind::Greater),
        Class::SignLessOrEqual => Some(RelationKind::LessOrEqual),
        Class::SignGreaterOrEqual => Some(RelationKind::GreaterOrEqual),
        Class::WordIn => Some(RelationKind::In),
        _ => None,
    }
}

fn is_relation(class: Class) -> bool
    ensures { result ≡ begins_relation class }
{
    class == Class::WordNot || relation_of(class).is_some()
}

/// Whether a relation begins with the next token.
pub fn begins_relation(tokens: &Cursor<'_>) -> bool
    ensures { Begins (rule r-relation) tokens.now result }
{
    match tokens.class() {
        Some(class) => is_relation(class),
        None => false,
    }
}

/// A relation.
pub fn relation(tokens: &mut Cursor<'_>) -> Result<Relation, Stop>
    requires { tokens.old.number < 4294967295 }
    ensures reads { Reads (rule r-relation) (λ x. x) result tokens.old tokens.new }
    ensures less { IfOk result (λ _. weight tokens.new + 31 ≤ weight tokens.old) }
{
    let at = tokens.mark();
    let kind = relation_kind(tokens)?;
    Ok(Relation { at, kind })
}

fn relation_kind(tokens: &mut Cursor<'_>) -> Result<RelationKind, Stop>
    ensures reads { Reads (body r-relation) relation_view result tokens.old tokens.new }
    ensures less { IfOk result (λ _. weight tokens.new + 32 ≤ weight tokens.old) }
{
    let Some(class) = tokens.class() else {
        return Err(Stop::Unexpected);
    };
    match relation_of(class) {
        Some(kind) => {
            tokens.skip(class);
            Ok(kind)
        }
        None => {
            tokens.expect(Class::WordNot)?;
            tokens.expect(Class::WordIn)?;
            Ok(RelationKind::NotIn)
        }
    }
}

/// A sign, where one is next.
pub fn sign(tokens: &mut Cursor<'_>) -> Option<Sign>
    ensures offers { Offers signs sign_view result tokens.old tokens.new }
    ensures less { MatchOption result (weight tokens.new ≤ weight tokens.old) (λ _. weight tokens.new + 32 ≤ weight tokens.old) }
{
    if tokens.eat(Class::SignPlus) {
        Some(Sign::Plus)
    } else if tokens.eat(Class::SignMinus) {
        Some(Sign::Minus)
    } else {
        None
    }
}

/// An operator between factors, where one is next.
pub fn multiplication(tokens: &mut Cursor<'_>) -> Option<Multiplication>
    ensures offers { Offers multiplications multiplication_view result tokens.old tokens.new }
    ensures less { MatchOption result (weight tokens.new ≤ weight tokens.old) (λ _. weight tokens.new + 32 ≤ weight tokens.old) }
{
    if tokens.eat(Class::SignStar) {
        Some(Multiplication::Times)
    } else if tokens.eat(Class::WordDiv) {
        Some(Multiplication::Div)
    } else if tokens.eat(Class::WordMod) {
        Some(Multiplication::Mod)
    } else {
        None
    }
}
