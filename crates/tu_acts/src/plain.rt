// The acts of statements without blocks.
ghost use Rattle.std.specs.Prelude.{◌≡◌, ◌∷◌, ◌++◌, OnOk};
ghost use Rattle.tu_core.specs.Acts.{ACollection, Changing, Reading, Talking, also_read, optional_acts, path_acts, plain_acts, scalar_acts, shown_acts, simple_acts, subject_of, taken_acts, test_acts, text_acts};
ghost use Rattle.tu_core_expressions.specs.ExpressionViews.{optional_view};
ghost use Rattle.tu_core_types.specs.StatementViews.{shown_view, taken_view};
ghost use Rattle.tu_acts.specs.Rows.{one_shown_acts, one_taken_acts};

use crate::act_list::ActList;
use crate::expressions::{call, path, scalar, simple, text};
use crate::{ActForm, Subject};
use tu_base::Memory;
use tu_core::At;
use tu_core_expressions::{Path, Root, Scalar, Simple, Text};
use tu_core_types::{Plain, PlainForm, Shown, Taken, Test};

/// Adds the acts of an expression that may be left out.
pub fn maybe<'a>(acts: &mut ActList<'a>, e: &'a Option<Scalar>) -> Result<(), Memory>
    ensures { OnOk result (acts.new ≡ optional_acts (optional_view e.now) ++ acts.old) }
{
    match e {
        None => Ok(()),
        Some(e) => scalar(acts, e),
    }
}

/// Adds the acts of the invariant of a loop, where it has one.
pub fn test<'a>(acts: &mut ActList<'a>, t: &'a Option<Test>) -> Result<(), Memory>
    ensures { OnOk result (acts.new ≡ test_acts t.now ++ acts.old) }
{
    match t {
        None => Ok(()),
        Some(t) => scalar(acts, &t.condition),
    }
}

fn one_shown<'a>(acts: &mut ActList<'a>, x: &'a Shown) -> Result<(), Memory>
    ensures { OnOk result (acts.new ≡ one_shown_acts x.now ++ acts.old) }
{
    match x {
        Shown::ShowInt { value, width } => {
            maybe(acts, width)?;
            scalar(acts, value)
        }
        Shown::ShowTruth { value, width } => {
            maybe(acts, width)?;
            scalar(acts, value)
        }
        Shown::ShowText { value, width } => {
            maybe(acts, width)?;
            text(acts, value)
        }
    }
}

fn shown<'a>(acts: &mut ActList<'a>, xs: &'a [Shown]) -> Result<(), Memory>
    ensures { OnOk result (acts.new ≡ shown_acts (shown_view xs.now) ++ acts.old) }
{
    for place in (0..xs.len()).rev() {
        one_shown(acts, &xs[place])?;
    }
    Ok(())
}

fn one_taken<'a>(acts: &mut ActList<'a>, x: &'a Taken) -> Result<(), Memory>
    ensures { OnOk result (acts.new ≡ one_taken_acts x.now ++ acts.old) }
{
    match x {
        Taken::TakeInt(_, p) => path(acts, true, p),
        Taken::TakeTruth(p) => path(acts, true, p),
        Taken::TakeToken(_, p) => path(acts, true, p),
        Taken::TakeLine(_, p) => path(acts, true, p),
        Taken::TakeCount { place, count, .. } => {
            scalar(acts, count)?;
            path(acts, true, place)
        }
    }
}

fn taken<'a>(acts: &mut ActList<'a>, xs: &'a [Taken]) -> Result<(), Memory>
    ensures { OnOk result (acts.new ≡ taken_acts (taken_view xs.now) ++ acts.old) }
{
    for place in (0..xs.len()).rev() {
        one_taken(acts, &xs[place])?;
    }
    Ok(())
}

// That the subject of a place is read too, where it is no call's result.
fn read_too(acts: &mut ActList<'_>, at: At, p: &Path) -> Result<(), Memory>
    ensures { OnOk result (acts.new ≡ also_read at (subject_of p.now) ++ acts.old) }
{
    match &p.root {
        Root::Name(x) => acts.add(ActForm::Reading(at, Subject::AVariable(*x))),
        Root::OpenItem { name, .. } => acts.add(ActForm::Reading(at, Subject::AVariable(*name))),
        Root::Element { collection, .. } => {
            acts.add(ActForm::Reading(at, Subject::ACollection(*collection)))
        }
        Root::ResultOf { .. } => Ok(()),
    }
}

fn assign<'a>(acts: &mut ActList<'a>, p: &'a Path, e: &'a Simple) -> Result<(), Memory>
    ensures { OnOk result (acts.new ≡ (path_acts Changing p.now ++ simple_acts e.now) ++ acts.old) }
{
    simple(acts, e)?;
    path(acts, true, p)
}

fn copy<'a>(acts: &mut ActList<'a>, to: &'a Path, from: &'a Path) -> Result<(), Memory>
    ensures { OnOk result (acts.new ≡ (path_acts Changing to.now ++ path_acts Reading from.now) ++ acts.old) }
{
    path(acts, false, from)?;
    path(acts, true, to)
}

fn tag<'a>(acts: &mut ActList<'a>, p: &'a Path, e: &'a Scalar) -> Result<(), Memory>
    ensures { OnOk result (acts.new ≡ (path_acts Changing p.now ++ scalar_acts e.now) ++ acts.old) }
{
    scalar(acts, e)?;
    path(acts, true, p)
}

// What `new` and `free` do: each changes the collection, and `free` reads its pointer besides.
fn new<'a>(acts: &mut ActList<'a>, collection: u32, at: At, p: &'a Path) -> Result<(), Memory>
    ensures { OnOk result (acts.new ≡ Changing at (ACollection collection) ∷ path_acts Changing p.now ++ acts.old) }
{
    path(acts, true, p)?;
    acts.add(ActForm::Changing(at, Subject::ACollection(collection)))
}

fn free<'a>(acts: &mut ActList<'a>, collection: u32, at: At, p: &'a Path) -> Result<(), Memory>
    ensures { OnOk result (acts.new ≡ Changing at (ACollection collection) ∷ (also_read at (subject_of p.now) ++ path_acts Changing p.now) ++ acts.old) }
{
    path(acts, true, p)?;
    read_too(acts, at, p)?;
    acts.add(ActForm::Changing(at, Subject::ACollection(collection)))
}

fn put<'a>(
    acts: &mut ActList<'a>,
    at: At,
    stream: &'a Option<Scalar>,
    parts: &'a [Shown],
) -> Result<(), Memory>
    ensures { OnOk result (acts.new ≡ Talking at ∷ (optional_acts (optional_view stream.now) ++ shown_acts (shown_view parts.now)) ++ acts.old) }
{
    shown(acts, parts)?;
    maybe(acts, stream)?;
    acts.add(ActForm::Talking(at))
}

fn get<'a>(
    acts: &mut ActList<'a>,
    at: At,
    stream: &'a Option<Scalar>,
    parts: &'a [Taken],
) -> Result<(), Memory>
    ensures { OnOk result (acts.new ≡ Talking at ∷ (optional_acts (optional_view stream.now) ++ taken_acts (taken_view parts.now)) ++ acts.old) }
{
    taken(acts, parts)?;
    maybe(acts, stream)?;
    acts.add(ActForm::Talking(at))
}

fn open_stream<'a>(
    acts: &mut ActList<'a>,
    at: At,
    p: &'a Path,
    name: &'a Text,
) -> Result<(), Memory>
    ensures { OnOk result (acts.new ≡ Talking at ∷ (path_acts Changing p.now ++ text_acts name.now) ++ acts.old) }
{
    text(acts, name)?;
    path(acts, true, p)?;
    acts.add(ActForm::Talking(at))
}

fn close<'a>(acts: &mut ActList<'a>, at: At, e: &'a Scalar) -> Result<(), Memory>
    ensures { OnOk result (acts.new ≡ Talking at ∷ scalar_acts e.now ++ acts.old) }
{
    scalar(acts, e)?;
    acts.add(ActForm::Talking(at))
}

/// Adds the acts of a statement without blocks.
pub fn plain<'a>(acts: &mut ActList<'a>, at: At, s: &'a Plain) -> Result<(), Memory>
    ensures { OnOk result (acts.new ≡ plain_acts at s.now ++ acts.old) }
{
    match &s.form {
        PlainForm::Assign(_, p, e) => assign(acts, p, e),
        PlainForm::Copy { to, from, .. } => copy(acts, to, from),
        PlainForm::Exit { condition } => maybe(acts, condition),
        PlainForm::Return => Ok(()),
        PlainForm::Give(_, e) => simple(acts, e),
        PlainForm::GiveCopy { place, .. } => path(acts, false, place),
        PlainForm::Check(_, e) => scalar(acts, e),
        PlainForm::New {
            collection,
            at: named,
            place,
        } => new(acts, *collection, *named, place),
        PlainForm::Free {
            collection,
            at: named,
            place,
        } => free(acts, *collection, *named, place),
        PlainForm::Tag { place, value, .. } => tag(acts, place, value),
        PlainForm::Put { stream, shown, .. } => put(acts, at, stream, shown.as_slice()),
        PlainForm::Get { stream, taken } => get(acts, at, stream, taken.as_slice()),
        PlainForm::OpenStream { place, name, .. } => open_stream(acts, at, place, name),
        PlainForm::Close(e) => close(acts, at, e),
        PlainForm::Do(c) => call(acts, c),
        PlainForm::Quit { number } => maybe(acts, number),
    }
}
