// The search for what a name stands for.
ghost use Rattle.std.specs.Prelude.{◌≡◌, reverse, map};
ghost use Rattle.std.specs.List.{list_any};
ghost use Rattle.std.specs.Str.{bytes_eq};
ghost use Rattle.tu_scope_rules.specs.Entries.{entry_at};
ghost use Rattle.tu_scope_rules.specs.Search.{in_scope, is_declared_around, is_predefined, outside, search, special};

use crate::event::{Context, Declaration, Visibility};
use crate::table::{Namespace, Table};

/// An open scope, by its number.
#[derive(Clone, Copy, Debug)]
pub struct Scope {
    pub number: u32,
    pub visibility: Visibility,
}

/// What a name stands for.
#[derive(Clone, Copy, Debug)]
pub enum Found {
    /// What is declared.
    Known(Declaration),
    /// What is known from the start.
    Predefined,
    /// What only a missing import hides.
    Hidden,
    /// Nothing.
    Nowhere,
}

const PREDEFINED: [&[u8]; 15] = [
    b"abs", b"min", b"max", b"ord", b"chr", b"succ", b"pred", b"length", b"index", b"repeat",
    b"intstr", b"strint", b"lower", b"upper", b"eof",
];

fn is_among(names: &[&[u8]], name: &[u8]) -> bool
    ensures { result ≡ list_any (bytes_eq name.now) (map (λ n. n.now) names.now) }
{
    let mut rest = names;
    while let [known, more @ ..] = rest {
        if name == *known {
            return true;
        }
        rest = more;
    }
    false
}

fn is_predefined(name: &[u8]) -> bool
    ensures { result ≡ is_predefined name.now }
{
    is_among(&PREDEFINED, name)
}

fn special<'a>(
    table: &Table<'a>,
    name: &'a [u8],
    context: Context,
    scope: u32,
) -> Option<Declaration>
    ensures { result ≡ special (entry_at table.now) name.now context scope }
{
    match context {
        Context::Elsewhere => None,
        Context::AfterPointer => table.get(scope, Namespace::Early, name),
        Context::InPost => table.get(scope, Namespace::Outcome, name),
    }
}

fn in_scope<'a>(
    table: &Table<'a>,
    name: &'a [u8],
    context: Context,
    scope: u32,
) -> Option<Declaration>
    ensures { result ≡ in_scope (entry_at table.now) name.now context scope }
{
    let declared = table.get(scope, Namespace::Declared, name);
    let imported = table.get(scope, Namespace::Imported, name);
    special(table, name, context, scope).or(declared.or(imported))
}

fn is_declared_around<'a>(table: &Table<'a>, name: &'a [u8], scopes: &[Scope]) -> bool
    ensures { result ≡ is_declared_around (entry_at table.now) name.now (reverse scopes.now) }
{
    let mut rest = scopes;
    while let Some((scope, outer)) = rest.split_last() {
        if table.get(scope.number, Namespace::Declared, name).is_some() {
            return true;
        }
        rest = outer;
    }
    false
}

fn outside(name: &[u8], is_hidden: bool) -> Found
    ensures { result ≡ outside name.now is_hidden }
{
    if is_predefined(name) {
        Found::Predefined
    } else if is_hidden {
        Found::Hidden
    } else {
        Found::Nowhere
    }
}

/// What a name stands for, from the last scope on.
pub fn search<'a>(table: &Table<'a>, name: &'a [u8], context: Context, scopes: &[Scope]) -> Found
    ensures { result ≡ search (entry_at table.now) name.now context (reverse scopes.now) }
{
    let mut rest = scopes;
    while let Some((scope, around)) = rest.split_last() {
        if let Some(declaration) = in_scope(table, name, context, scope.number) {
            return Found::Known(declaration);
        }
        if let Visibility::Listed = scope.visibility {
            return outside(name, is_declared_around(table, name, around));
        }
        rest = around;
    }
    outside(name, false)
}
