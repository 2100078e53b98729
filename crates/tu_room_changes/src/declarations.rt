// The locals that declarations change. To declare a local is no change.
#![tactic(auto, using(crate::proofs::Appending::appending))]

ghost use Rattle.std.specs.Prelude.{◌≡◌, ◌++◌, OnOk};
ghost use Rattle.tu_core.specs.Measures.{of_start, of_starts, of_named, of_declaration};
ghost use Rattle.tu_core_types.specs.StatementViews.{starts_view};
ghost use Rattle.tu_room_changes.specs.Changed.{changed};

use crate::expressions::{path, scalars, simple};
use tu_base::{Memory, Numbers};
use tu_core_types::{Declaration, DeclarationForm, Named, Start, StartForm};

#[cycle(starts)]
fn start(s: &Start, found: &mut Numbers) -> Result<(), Memory>
    ensures { OnOk result (found.new ≡ found.old ++ of_start changed s.now) }
{
    match &s.form {
        StartForm::WithValue(_, e) => simple(e, found),
        StartForm::WithCopy { place, .. } => path(place, found),
        StartForm::WithParts { parts, .. } => starts(parts.as_slice(), found),
    }
}

#[cycle(starts)]
fn starts(xs: &[Start], found: &mut Numbers) -> Result<(), Memory>
    ensures { OnOk result (found.new ≡ found.old ++ of_starts changed (starts_view xs.now)) }
{
    for x in xs {
        start(x, found)?;
    }
    Ok(())
}

fn named(xs: &[Named], found: &mut Numbers) -> Result<(), Memory>
    ensures { OnOk result (found.new ≡ found.old ++ of_named changed xs.now) }
{
    for x in xs {
        start(&x.start, found)?;
    }
    Ok(())
}

/// Notes the locals that a declaration changes.
pub fn declaration(d: &Declaration, found: &mut Numbers) -> Result<(), Memory>
    ensures { OnOk result (found.new ≡ found.old ++ of_declaration changed d.now) }
{
    match &d.form {
        DeclarationForm::Constant(x) => start(&x.start, found),
        DeclarationForm::InitClause(xs) => named(xs.as_slice(), found),
        DeclarationForm::Variables { .. } => Ok(()),
        DeclarationForm::Started { start: s, .. } => start(s, found),
        DeclarationForm::Arrays { bounds, .. } => scalars(bounds.as_slice(), found),
        DeclarationForm::Collections(_) => Ok(()),
        DeclarationForm::Mention { .. } => Ok(()),
    }
}
