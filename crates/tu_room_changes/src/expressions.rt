// The locals that expressions and places change.
#![tactic(auto, using(crate::proofs::Appending::appending))]

ghost use Rattle.std.specs.Prelude.{◌≡◌, ◌++◌, OnOk};
ghost use Rattle.tu_core.specs.Measures.{of_scalar, of_links, of_text, of_texts, of_cuts, of_spot, of_set, of_combinations, of_pointer, of_scalars, of_optional, of_path, of_selectors, of_subscripts, of_call, of_actuals, of_simple};
ghost use Rattle.tu_core_expressions.specs.ExpressionViews.{links_view, texts_view, cuts_view, combinations_view, scalars_view, optional_view, subscripts_view, selectors_view, actuals_view};
ghost use Rattle.tu_room_parts.specs.Rows.{one_link, one_cut, one_selector, one_actual};
ghost use Rattle.tu_room_changes.specs.Changed.{changed};

use crate::roots::note_actual;
use sqlite_items::Boxed;
use tu_base::{Memory, Numbers};
use tu_core_expressions::{
    Actual, Call, Cut, Link, Path, Pointer, PointerForm, Root, Scalar, ScalarForm, Selector, Set,
    SetForm, SetLink, Simple, SimpleForm, Spot, SpotForm, Subscript, Text, TextForm,
};

/// Notes the locals that a scalar changes.
#[cycle(expressions)]
pub fn scalar(e: &Scalar, found: &mut Numbers) -> Result<(), Memory>
    ensures { OnOk result (found.new ≡ found.old ++ of_scalar changed e.now) }
{
    match &e.form {
        ScalarForm::Literal(_) => Ok(()),
        ScalarForm::Use(p) => path(p, found),
        ScalarForm::Prefixed(_, e) => scalar(e.get(), found),
        ScalarForm::Chain(e, more) => {
            scalar(e.get(), found)?;
            links(more.as_slice(), found)
        }
        ScalarForm::CompareTexts(_, a, b) => two_texts(a, b, found),
        ScalarForm::CompareSets(_, _, a, b) => two_sets(a, b, found),
        ScalarForm::ComparePointers { left, right, .. } => two_pointers(left, right, found),
        ScalarForm::Member {
            element,
            set: s,
            ..
        } => {
            scalar(element.get(), found)?;
            set(s.get(), found)
        }
        ScalarForm::Length(e) => text(e.get(), found),
        ScalarForm::PlaceIn(a, b) => two_texts(a, b, found),
        ScalarForm::ByteOf(e) => text(e.get(), found),
        ScalarForm::TextInt(e) => text(e.get(), found),
        ScalarForm::Bound {
            place,
            dimension,
            ..
        } => {
            path(place, found)?;
            inner(dimension, found)
        }
        ScalarForm::AtEnd { stream, .. } => inner(stream, found),
        ScalarForm::CallScalar(c) => call(c, found),
    }
}

#[cycle(expressions)]
fn two_texts(a: &Boxed<Text>, b: &Boxed<Text>, found: &mut Numbers) -> Result<(), Memory>
    ensures { OnOk result (found.new ≡ found.old ++ (of_text changed a.now ++ of_text changed b.now)) }
{
    text(a.get(), found)?;
    text(b.get(), found)
}

#[cycle(expressions)]
fn two_sets(a: &Boxed<Set>, b: &Boxed<Set>, found: &mut Numbers) -> Result<(), Memory>
    ensures { OnOk result (found.new ≡ found.old ++ (of_set changed a.now ++ of_set changed b.now)) }
{
    set(a.get(), found)?;
    set(b.get(), found)
}

#[cycle(expressions)]
fn two_pointers(a: &Boxed<Pointer>, b: &Boxed<Pointer>, found: &mut Numbers) -> Result<(), Memory>
    ensures { OnOk result (found.new ≡ found.old ++ (of_pointer changed a.now ++ of_pointer changed b.now)) }
{
    pointer(a.get(), found)?;
    pointer(b.get(), found)
}

#[cycle(expressions)]
fn inner(e: &Option<Boxed<Scalar>>, found: &mut Numbers) -> Result<(), Memory>
    ensures { OnOk result (found.new ≡ found.old ++ of_optional changed (optional_view e.now)) }
{
    match e {
        None => Ok(()),
        Some(e) => scalar(e.get(), found),
    }
}

#[cycle(expressions)]
fn links(xs: &[Link], found: &mut Numbers) -> Result<(), Memory>
    ensures { OnOk result (found.new ≡ found.old ++ of_links changed (links_view xs.now)) }
{
    for x in xs {
        link(x, found)?;
    }
    Ok(())
}

#[cycle(expressions)]
fn link(x: &Link, found: &mut Numbers) -> Result<(), Memory>
    ensures { OnOk result (found.new ≡ found.old ++ one_link changed x.now) }
{
    match x {
        Link::Operate(_, e) => scalar(e, found),
        Link::Decide(_, e) => scalar(e, found),
    }
}

/// Notes the locals that a text changes.
#[cycle(expressions)]
pub fn text(e: &Text, found: &mut Numbers) -> Result<(), Memory>
    ensures { OnOk result (found.new ≡ found.old ++ of_text changed e.now) }
{
    match &e.form {
        TextForm::Written(_) => Ok(()),
        TextForm::UseText(p) => path(p, found),
        TextForm::Joined(e, more) => {
            text(e.get(), found)?;
            texts(more.as_slice(), found)
        }
        TextForm::Cut(e, more) => {
            text(e.get(), found)?;
            cuts(more.as_slice(), found)
        }
        TextForm::Character(e) => scalar(e.get(), found),
        TextForm::IntText { number, width } => {
            scalar(number.get(), found)?;
            inner(width, found)
        }
        TextForm::Repeat(e, k) => {
            text(e.get(), found)?;
            scalar(k.get(), found)
        }
        TextForm::CallText(c) => call(c, found),
    }
}

#[cycle(expressions)]
fn texts(xs: &[Text], found: &mut Numbers) -> Result<(), Memory>
    ensures { OnOk result (found.new ≡ found.old ++ of_texts changed (texts_view xs.now)) }
{
    for x in xs {
        text(x, found)?;
    }
    Ok(())
}

#[cycle(expressions)]
fn cuts(xs: &[Cut], found: &mut Numbers) -> Result<(), Memory>
    ensures { OnOk result (found.new ≡ found.old ++ of_cuts changed (cuts_view xs.now)) }
{
    for x in xs {
        cut(x, found)?;
    }
    Ok(())
}

#[cycle(expressions)]
fn cut(x: &Cut, found: &mut Numbers) -> Result<(), Memory>
    ensures { OnOk result (found.new ≡ found.old ++ one_cut changed x.now) }
{
    match x {
        Cut::CutCharacter(i) => spot(i, found),
        Cut::CutPart { first, last } => {
            spot(first, found)?;
            spot(last, found)
        }
    }
}

#[cycle(expressions)]
fn spot(i: &Spot, found: &mut Numbers) -> Result<(), Memory>
    ensures { OnOk result (found.new ≡ found.old ++ of_spot changed i.now) }
{
    match &i.form {
        SpotForm::Exactly(e) => scalar(e.get(), found),
        SpotForm::Last => Ok(()),
        SpotForm::BeforeLast(e) => scalar(e.get(), found),
    }
}

#[cycle(expressions)]
fn set(e: &Set, found: &mut Numbers) -> Result<(), Memory>
    ensures { OnOk result (found.new ≡ found.old ++ of_set changed e.now) }
{
    match &e.form {
        SetForm::SetOf(_, es) => scalars(es.as_slice(), found),
        SetForm::FullSet(_) => Ok(()),
        SetForm::UseSet(p) => path(p, found),
        SetForm::Combined(_, e, more) => {
            set(e.get(), found)?;
            combinations(more.as_slice(), found)
        }
        SetForm::CallSet(c) => call(c, found),
    }
}

#[cycle(expressions)]
fn combinations(xs: &[SetLink], found: &mut Numbers) -> Result<(), Memory>
    ensures { OnOk result (found.new ≡ found.old ++ of_combinations changed (combinations_view xs.now)) }
{
    for x in xs {
        set(&x.set, found)?;
    }
    Ok(())
}

#[cycle(expressions)]
fn pointer(e: &Pointer, found: &mut Numbers) -> Result<(), Memory>
    ensures { OnOk result (found.new ≡ found.old ++ of_pointer changed e.now) }
{
    match &e.form {
        PointerForm::Nil { .. } => Ok(()),
        PointerForm::UsePointer(p) => path(p, found),
        PointerForm::CallPointer(c) => call(c, found),
    }
}

/// Notes the locals that scalars in a row change.
#[cycle(expressions)]
pub fn scalars(xs: &[Scalar], found: &mut Numbers) -> Result<(), Memory>
    ensures { OnOk result (found.new ≡ found.old ++ of_scalars changed (scalars_view xs.now)) }
{
    for x in xs {
        scalar(x, found)?;
    }
    Ok(())
}

/// Notes the locals that the evaluation of a place changes.
#[cycle(expressions)]
pub fn path(p: &Path, found: &mut Numbers) -> Result<(), Memory>
    ensures { OnOk result (found.new ≡ found.old ++ of_path changed p.now) }
{
    match &p.root {
        Root::Name(_) => selectors(p.steps.as_slice(), found),
        Root::OpenItem { subscripts: es, .. } => {
            subscripts(es.as_slice(), found)?;
            selectors(p.steps.as_slice(), found)
        }
        Root::Element { pointer: e, .. } => {
            pointer(e.get(), found)?;
            selectors(p.steps.as_slice(), found)
        }
        Root::ResultOf { call: c, .. } => {
            call(c, found)?;
            selectors(p.steps.as_slice(), found)
        }
    }
}

#[cycle(expressions)]
fn selectors(xs: &[Selector], found: &mut Numbers) -> Result<(), Memory>
    ensures { OnOk result (found.new ≡ found.old ++ of_selectors changed (selectors_view xs.now)) }
{
    for x in xs {
        selector(x, found)?;
    }
    Ok(())
}

#[cycle(expressions)]
fn selector(x: &Selector, found: &mut Numbers) -> Result<(), Memory>
    ensures { OnOk result (found.new ≡ found.old ++ one_selector changed x.now) }
{
    match x {
        Selector::Field { .. } => Ok(()),
        Selector::VariantField { .. } => Ok(()),
        Selector::Item { subscripts: es, .. } => subscripts(es.as_slice(), found),
    }
}

#[cycle(expressions)]
fn subscripts(xs: &[Subscript], found: &mut Numbers) -> Result<(), Memory>
    ensures { OnOk result (found.new ≡ found.old ++ of_subscripts changed (subscripts_view xs.now)) }
{
    for x in xs {
        scalar(&x.index, found)?;
    }
    Ok(())
}

/// Notes the locals that a call changes.
#[cycle(expressions)]
pub fn call(c: &Call, found: &mut Numbers) -> Result<(), Memory>
    ensures { OnOk result (found.new ≡ found.old ++ of_call changed c.now) }
{
    actuals(c.actuals.as_slice(), found)
}

#[cycle(expressions)]
fn actuals(xs: &[Actual], found: &mut Numbers) -> Result<(), Memory>
    ensures { OnOk result (found.new ≡ found.old ++ of_actuals changed (actuals_view xs.now)) }
{
    for x in xs {
        actual(x, found)?;
    }
    Ok(())
}

#[cycle(expressions)]
fn actual(x: &Actual, found: &mut Numbers) -> Result<(), Memory>
    ensures { OnOk result (found.new ≡ found.old ++ one_actual changed x.now) }
{
    note_actual(x, found)?;
    match x {
        Actual::Given { value, .. } => simple(value, found),
        Actual::Lent { place, .. } => path(place, found),
    }
}

/// Notes the locals that an expression of any sort changes.
#[cycle(expressions)]
pub fn simple(e: &Simple, found: &mut Numbers) -> Result<(), Memory>
    ensures { OnOk result (found.new ≡ found.old ++ of_simple changed e.now) }
{
    match &e.form {
        SimpleForm::AScalar(e) => scalar(e, found),
        SimpleForm::AText(e) => text(e, found),
        SimpleForm::ASet(e) => set(e, found),
        SimpleForm::APointer(e) => pointer(e, found),
    }
}
