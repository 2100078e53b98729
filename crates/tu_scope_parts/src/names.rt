// Names where they stand, and lists of them.
ghost use Rattle.std.specs.Prelude.{◌≡◌, [], ◌∷◌, ◌++◌, OnOk};
ghost use Rattle.tu_expr.specs.Leaves.{leaf_view};
ghost use Rattle.tu_tree.specs.TypeViews.{tag_view};
ghost use Rattle.tu_scope_parts.specs.Roles.{event_for};
ghost use Rattle.tu_scope_parts.specs.Adds.{Extends};
ghost use Rattle.tu_scope_parts.specs.Walk.{declared, each, each_maybe, name_at, name_use, plain};

use crate::events::Events;
use tu_base::Memory;
use tu_expr::Leaf;
use tu_scope_rules::{Context, Declaration, Entity, Event, Name};
use tu_token::Class;
use tu_tree::{Name as TypeName, Names};

/// What a name in a list is.
#[derive(Clone, Copy, PartialEq, Eq)]
pub enum NameRole {
    /// Declared.
    Declared,
    /// A field, a tag or a value of an enumeration.
    Member,
    /// A collection in its element type.
    Early,
    /// The result of a function.
    Outcome,
}

/// A name where it stands.
pub fn name<'a>(leaf: &'a Leaf) -> Name<'a>
    ensures { result ≡ name_at (leaf_view Class.Name leaf.now) }
{
    Name {
        text: leaf.text.as_slice(),
        start: leaf.start,
        line: leaf.line,
    }
}

fn plain(leaf: &Leaf) -> Declaration
    ensures { result ≡ plain (leaf_view Class.Name leaf.now) }
{
    Declaration {
        number: leaf.start,
        entity: Entity::Plain,
    }
}

fn event_for<'a>(role: NameRole, leaf: &'a Leaf) -> Event<'a>
    ensures { result ≡ event_for role (leaf_view Class.Name leaf.now) }
{
    match role {
        NameRole::Declared => Event::Declare(name(leaf), plain(leaf)),
        NameRole::Member => Event::Member(name(leaf), plain(leaf)),
        NameRole::Early => Event::Early(name(leaf), plain(leaf)),
        NameRole::Outcome => Event::Outcome(name(leaf), plain(leaf)),
    }
}

/// Declares a name.
pub fn declare<'a>(leaf: &'a Leaf, out: &mut Events<'a>) -> Result<(), Memory>
    ensures { OnOk result (Extends (declared (leaf_view Class.Name leaf.now) ∷ []) out.old out.new) }
{
    out.push(event_for(NameRole::Declared, leaf))
}

/// Adds an event for each of some names.
pub fn list_names<'a>(role: NameRole, names: &'a Names, out: &mut Events<'a>) -> Result<(), Memory>
    ensures { OnOk result (Extends (each (event_for role) names.now) out.old out.new) }
{
    out.push(event_for(role, &names.first))?;
    for x in names.more.as_slice() {
        out.push(event_for(role, x))?;
    }
    Ok(())
}

/// Adds an event for a name, where there is one.
pub fn list_any_name<'a>(
    role: NameRole,
    name: &'a Option<Leaf>,
    out: &mut Events<'a>,
) -> Result<(), Memory>
    ensures { OnOk result (Extends (each_maybe (event_for role) (tag_view name.now)) out.old out.new) }
{
    match name {
        Some(name) => out.push(event_for(role, name)),
        None => Ok(()),
    }
}

fn name_use<'a>(context: Context, of: &'a TypeName) -> Event<'a>
    ensures { result ≡ name_use context of.now }
{
    match &of.second {
        None => Event::Use(name(&of.first), context),
        Some(second) => Event::Select(name(&of.first), name(second), context),
    }
}

/// Adds the use of a type's name.
pub fn use_name<'a>(context: Context, of: &'a TypeName, out: &mut Events<'a>) -> Result<(), Memory>
    ensures { OnOk result (Extends (name_use context of.now ∷ []) out.old out.new) }
{
    out.push(name_use(context, of))
}
