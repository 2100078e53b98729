// The locals that statements without blocks change.
#![tactic(auto, using(crate::proofs::Appending::appending))]

ghost use Rattle.std.specs.Prelude.{◌≡◌, [], ◌∷◌, ◌++◌, OnOk};
ghost use Rattle.tu_core.specs.Measures.{of_scalar, of_path, of_optional, of_range, of_shown, of_taken, of_plain, of_test};
ghost use Rattle.tu_core_expressions.specs.ExpressionViews.{optional_view};
ghost use Rattle.tu_core_types.specs.StatementViews.{shown_view, taken_view};
ghost use Rattle.tu_room_counts.specs.StatementRows.{one_shown as one_shown_of, one_taken as one_taken_of};
ghost use Rattle.tu_room_changes.specs.Changed.{changed, taken_changes, plain_changes};

use crate::expressions::{call, path, scalar, simple, text};
use crate::roots::note_root;
use tu_base::{Memory, Numbers};
use tu_core_expressions::{Path, Scalar};
use tu_core_types::{Plain, PlainForm, Range, RangeForm, Shown, Taken, Test};

fn maybe(e: &Option<Scalar>, found: &mut Numbers) -> Result<(), Memory>
    ensures { OnOk result (found.new ≡ found.old ++ of_optional changed (optional_view e.now)) }
{
    match e {
        None => Ok(()),
        Some(e) => scalar(e, found),
    }
}

/// Notes the locals that the invariant of a loop changes, where it has one.
pub fn test(t: &Option<Test>, found: &mut Numbers) -> Result<(), Memory>
    ensures { OnOk result (found.new ≡ found.old ++ of_test changed t.now) }
{
    match t {
        None => Ok(()),
        Some(t) => scalar(&t.condition, found),
    }
}

/// Notes the locals that the range of a `for` changes.
pub fn range(r: &Range, found: &mut Numbers) -> Result<(), Memory>
    ensures { OnOk result (found.new ≡ found.old ++ of_range changed r.now) }
{
    match &r.form {
        RangeForm::FromTo { first, last } => {
            scalar(first, found)?;
            scalar(last, found)
        }
        RangeForm::Through(_) => Ok(()),
    }
}

fn one_shown(x: &Shown, found: &mut Numbers) -> Result<(), Memory>
    ensures { OnOk result (found.new ≡ found.old ++ one_shown_of changed x.now) }
{
    match x {
        Shown::ShowInt { value, width } => {
            scalar(value, found)?;
            maybe(width, found)
        }
        Shown::ShowTruth { value, width } => {
            scalar(value, found)?;
            maybe(width, found)
        }
        Shown::ShowText { value, width } => {
            text(value, found)?;
            maybe(width, found)
        }
    }
}

fn shown(xs: &[Shown], found: &mut Numbers) -> Result<(), Memory>
    ensures { OnOk result (found.new ≡ found.old ++ of_shown changed (shown_view xs.now)) }
{
    for x in xs {
        one_shown(x, found)?;
    }
    Ok(())
}

fn own_taken(x: &Taken, found: &mut Numbers) -> Result<(), Memory>
    ensures { OnOk result (found.new ≡ found.old ++ taken_changes (taken_view (x.now ∷ []))) }
{
    match x {
        Taken::TakeInt(_, p) => note_root(p, found),
        Taken::TakeTruth(p) => note_root(p, found),
        Taken::TakeToken(_, p) => note_root(p, found),
        Taken::TakeLine(_, p) => note_root(p, found),
        Taken::TakeCount { place, .. } => note_root(place, found),
    }
}

fn place_and_scalar(p: &Path, e: &Scalar, found: &mut Numbers) -> Result<(), Memory>
    ensures { OnOk result (found.new ≡ found.old ++ (of_path changed p.now ++ of_scalar changed e.now)) }
{
    path(p, found)?;
    scalar(e, found)
}

fn one_taken(x: &Taken, found: &mut Numbers) -> Result<(), Memory>
    ensures { OnOk result (found.new ≡ found.old ++ one_taken_of changed x.now) }
{
    own_taken(x, found)?;
    match x {
        Taken::TakeInt(_, p) => path(p, found),
        Taken::TakeTruth(p) => path(p, found),
        Taken::TakeToken(_, p) => path(p, found),
        Taken::TakeLine(_, p) => path(p, found),
        Taken::TakeCount {
            place,
            count: e,
            ..
        } => place_and_scalar(place, e, found),
    }
}

fn taken(xs: &[Taken], found: &mut Numbers) -> Result<(), Memory>
    ensures { OnOk result (found.new ≡ found.old ++ of_taken changed (taken_view xs.now)) }
{
    for x in xs {
        one_taken(x, found)?;
    }
    Ok(())
}

fn own_plain(s: &Plain, found: &mut Numbers) -> Result<(), Memory>
    ensures { OnOk result (found.new ≡ found.old ++ plain_changes s.now) }
{
    match &s.form {
        PlainForm::Assign(_, p, _) => note_root(p, found),
        PlainForm::Copy { to, .. } => note_root(to, found),
        PlainForm::Exit { .. } => Ok(()),
        PlainForm::Return => Ok(()),
        PlainForm::Give(_, _) => Ok(()),
        PlainForm::GiveCopy { .. } => Ok(()),
        PlainForm::Check(_, _) => Ok(()),
        PlainForm::New { place, .. } => note_root(place, found),
        PlainForm::Free { place, .. } => note_root(place, found),
        PlainForm::Tag { place, .. } => note_root(place, found),
        PlainForm::Put { .. } => Ok(()),
        PlainForm::Get { .. } => Ok(()),
        PlainForm::OpenStream { place, .. } => note_root(place, found),
        PlainForm::Close(_) => Ok(()),
        PlainForm::Do(_) => Ok(()),
        PlainForm::Quit { .. } => Ok(()),
    }
}

fn two_paths(p: &Path, q: &Path, found: &mut Numbers) -> Result<(), Memory>
    ensures { OnOk result (found.new ≡ found.old ++ (of_path changed p.now ++ of_path changed q.now)) }
{
    path(p, found)?;
    path(q, found)
}

/// Notes the locals that a statement without blocks changes.
pub fn plain(s: &Plain, found: &mut Numbers) -> Result<(), Memory>
    ensures { OnOk result (found.new ≡ found.old ++ of_plain changed s.now) }
{
    own_plain(s, found)?;
    match &s.form {
        PlainForm::Assign(_, p, e) => {
            path(p, found)?;
            simple(e, found)
        }
        PlainForm::Copy { to, from, .. } => two_paths(to, from, found),
        PlainForm::Exit { condition } => maybe(condition, found),
        PlainForm::Return => Ok(()),
        PlainForm::Give(_, e) => simple(e, found),
        PlainForm::GiveCopy { place, .. } => path(place, found),
        PlainForm::Check(_, e) => scalar(e, found),
        PlainForm::New { place, .. } => path(place, found),
        PlainForm::Free { place, .. } => path(place, found),
        PlainForm::Tag { place, value, .. } => place_and_scalar(place, value, found),
        PlainForm::Put {
            stream,
            shown: xs,
            ..
        } => {
            maybe(stream, found)?;
            shown(xs.as_slice(), found)
        }
        PlainForm::Get { stream, taken: xs } => {
            maybe(stream, found)?;
            taken(xs.as_slice(), found)
        }
        PlainForm::OpenStream { place, name, .. } => {
            path(place, found)?;
            text(name, found)
        }
        PlainForm::Close(e) => scalar(e, found),
        PlainForm::Do(c) => call(c, found),
        PlainForm::Quit { number } => maybe(number, found),
    }
}
