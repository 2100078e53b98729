// What declarations add to a sum.
ghost use Rattle.std.specs.Prelude.{◌≡◌};
ghost use Rattle.tu_core.specs.Measures.{of_start, of_starts, of_named, of_declaration};
ghost use Rattle.tu_core.specs.Nodes.{declaration_nodes as declaration_nodes_of};
ghost use Rattle.tu_core_types.specs.StatementViews.{starts_view};
ghost use Rattle.tu_room_parts.specs.Capped.{capped};
ghost use Rattle.tu_room_parts.specs.Counts.{counting, where_nodes as where_nodes_of};

use tu_core_types::{Declaration, DeclarationForm, Named, Start, StartForm};
use tu_room_parts::{Count, cut_off, path, plus, scalars, simple, where_nodes};

#[cycle(starts)]
fn start(count: &Count, s: &Start) -> u64
    ensures { result ≡ of_start (counting count.now) s.now }
{
    match &s.form {
        StartForm::WithValue(_, e) => simple(count, e),
        StartForm::WithCopy { place, .. } => path(count, place),
        StartForm::WithParts { parts, .. } => {
            plus(where_nodes(count, 1), starts(count, parts.as_slice()))
        }
    }
}

#[cycle(starts)]
fn starts(count: &Count, xs: &[Start]) -> u64
    ensures { result ≡ of_starts (counting count.now) (starts_view xs.now) }
{
    let mut sum = 0;
    for x in xs {
        sum = plus(sum, start(count, x));
    }
    sum
}

fn named(count: &Count, xs: &[Named]) -> u64
    ensures { result ≡ of_named (counting count.now) xs.now }
{
    let mut sum = 0;
    for x in xs {
        sum = plus(sum, start(count, &x.start));
    }
    sum
}

fn declaration_nodes(d: &Declaration) -> u64
    ensures { result ≡ capped (declaration_nodes_of d.now) }
{
    match &d.form {
        DeclarationForm::Constant(_) => 1,
        DeclarationForm::InitClause(xs) => plus(1, xs.len() as u64),
        DeclarationForm::Variables { names, .. } => cut_off(names.len() as u64),
        DeclarationForm::Started { names, .. } => cut_off(names.len() as u64),
        DeclarationForm::Arrays { names, .. } => cut_off(names.len() as u64),
        DeclarationForm::Collections(cs) => cut_off(cs.len() as u64),
        DeclarationForm::Mention { .. } => 0,
    }
}

#[tactic(auto, using(crate::proofs::StatementRows::of_capped))]
fn own_declaration(count: &Count, d: &Declaration) -> u64
    ensures { result ≡ where_nodes_of count.now (declaration_nodes_of d.now) }
{
    where_nodes(count, declaration_nodes(d))
}

/// What a declaration adds.
pub fn declaration(count: &Count, d: &Declaration) -> u64
    ensures { result ≡ of_declaration (counting count.now) d.now }
{
    let own = own_declaration(count, d);
    match &d.form {
        DeclarationForm::Constant(x) => plus(own, start(count, &x.start)),
        DeclarationForm::InitClause(xs) => plus(own, named(count, xs.as_slice())),
        DeclarationForm::Variables { .. } => own,
        DeclarationForm::Started { start: s, .. } => plus(own, start(count, s)),
        DeclarationForm::Arrays { bounds, .. } => plus(own, scalars(count, bounds.as_slice())),
        DeclarationForm::Collections(_) => own,
        DeclarationForm::Mention { .. } => own,
    }
}
