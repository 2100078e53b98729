// The acts of expressions and places.
ghost use Rattle.std.specs.Prelude.{◌≡◌, ◌∷◌, ◌++◌, OnOk};
ghost use Rattle.tu_core.specs.Acts.{lending, scalar_acts, links_acts, optional_acts, text_acts, texts_acts, cuts_acts, spot_acts, set_acts, combinations_acts, scalars_acts, pointer_acts, simple_acts, path_acts, selectors_acts, subscripts_acts, call_acts, actuals_acts};
ghost use Rattle.tu_core_expressions.specs.ExpressionViews.{links_view, texts_view, cuts_view, combinations_view, scalars_view, optional_view, subscripts_view, selectors_view, actuals_view};
ghost use Rattle.tu_acts.specs.Rows.{link_acts, cut_acts, selector_acts, actual_acts};
ghost use Rattle.tu_acts.specs.ActViews.{subject_view};

use crate::act_list::ActList;
use crate::{ActForm, Subject};
use sqlite_items::Boxed;
use tu_base::Memory;
use tu_core::At;
use tu_core_expressions::{
    Actual, Call, Cut, Link, Path, Pointer, PointerForm, Root, Scalar, ScalarForm, Selector, Set,
    SetForm, SetLink, Simple, SimpleForm, Spot, SpotForm, Subscript, Text, TextForm,
};

/// Adds the acts of a scalar.
#[cycle(expressions)]
pub fn scalar<'a>(acts: &mut ActList<'a>, e: &'a Scalar) -> Result<(), Memory>
    ensures { OnOk result (acts.new ≡ scalar_acts e.now ++ acts.old) }
{
    match &e.form {
        ScalarForm::Literal(_) => Ok(()),
        ScalarForm::Use(p) => path(acts, false, p),
        ScalarForm::Prefixed(_, e) => scalar(acts, e.get()),
        ScalarForm::Chain(e, more) => {
            links(acts, more.as_slice())?;
            scalar(acts, e.get())
        }
        ScalarForm::CompareTexts(_, a, b) => {
            text(acts, b.get())?;
            text(acts, a.get())
        }
        ScalarForm::CompareSets(_, _, a, b) => {
            set(acts, b.get())?;
            set(acts, a.get())
        }
        ScalarForm::ComparePointers { left, right, .. } => {
            pointer(acts, right.get())?;
            pointer(acts, left.get())
        }
        ScalarForm::Member {
            element,
            set: s,
            ..
        } => {
            set(acts, s.get())?;
            scalar(acts, element.get())
        }
        ScalarForm::Length(e) => text(acts, e.get()),
        ScalarForm::PlaceIn(a, b) => {
            text(acts, b.get())?;
            text(acts, a.get())
        }
        ScalarForm::ByteOf(e) => text(acts, e.get()),
        ScalarForm::TextInt(e) => text(acts, e.get()),
        ScalarForm::Bound {
            place,
            dimension,
            ..
        } => {
            inner(acts, dimension)?;
            path(acts, false, place)
        }
        ScalarForm::AtEnd { at, stream } => {
            inner(acts, stream)?;
            acts.add(ActForm::Talking(*at))
        }
        ScalarForm::CallScalar(c) => call(acts, c),
    }
}

#[cycle(expressions)]
fn inner<'a>(acts: &mut ActList<'a>, e: &'a Option<Boxed<Scalar>>) -> Result<(), Memory>
    ensures { OnOk result (acts.new ≡ optional_acts (optional_view e.now) ++ acts.old) }
{
    match e {
        None => Ok(()),
        Some(e) => scalar(acts, e.get()),
    }
}

#[cycle(expressions)]
fn links<'a>(acts: &mut ActList<'a>, xs: &'a [Link]) -> Result<(), Memory>
    ensures { OnOk result (acts.new ≡ links_acts (links_view xs.now) ++ acts.old) }
{
    for place in (0..xs.len()).rev() {
        link(acts, &xs[place])?;
    }
    Ok(())
}

#[cycle(expressions)]
fn link<'a>(acts: &mut ActList<'a>, x: &'a Link) -> Result<(), Memory>
    ensures { OnOk result (acts.new ≡ link_acts x.now ++ acts.old) }
{
    match x {
        Link::Operate(_, e) => scalar(acts, e),
        Link::Decide(_, e) => scalar(acts, e),
    }
}

/// Adds the acts of a text.
#[cycle(expressions)]
pub fn text<'a>(acts: &mut ActList<'a>, e: &'a Text) -> Result<(), Memory>
    ensures { OnOk result (acts.new ≡ text_acts e.now ++ acts.old) }
{
    match &e.form {
        TextForm::Written(_) => Ok(()),
        TextForm::UseText(p) => path(acts, false, p),
        TextForm::Joined(e, more) => {
            texts(acts, more.as_slice())?;
            text(acts, e.get())
        }
        TextForm::Cut(e, more) => {
            cuts(acts, more.as_slice())?;
            text(acts, e.get())
        }
        TextForm::Character(e) => scalar(acts, e.get()),
        TextForm::IntText { number, width } => {
            inner(acts, width)?;
            scalar(acts, number.get())
        }
        TextForm::Repeat(e, k) => {
            scalar(acts, k.get())?;
            text(acts, e.get())
        }
        TextForm::CallText(c) => call(acts, c),
    }
}

#[cycle(expressions)]
fn texts<'a>(acts: &mut ActList<'a>, xs: &'a [Text]) -> Result<(), Memory>
    ensures { OnOk result (acts.new ≡ texts_acts (texts_view xs.now) ++ acts.old) }
{
    for place in (0..xs.len()).rev() {
        text(acts, &xs[place])?;
    }
    Ok(())
}

#[cycle(expressions)]
fn cuts<'a>(acts: &mut ActList<'a>, xs: &'a [Cut]) -> Result<(), Memory>
    ensures { OnOk result (acts.new ≡ cuts_acts (cuts_view xs.now) ++ acts.old) }
{
    for place in (0..xs.len()).rev() {
        cut(acts, &xs[place])?;
    }
    Ok(())
}

#[cycle(expressions)]
fn cut<'a>(acts: &mut ActList<'a>, x: &'a Cut) -> Result<(), Memory>
    ensures { OnOk result (acts.new ≡ cut_acts x.now ++ acts.old) }
{
    match x {
        Cut::CutCharacter(i) => spot(acts, i),
        Cut::CutPart { first, last } => {
            spot(acts, last)?;
            spot(acts, first)
        }
    }
}

#[cycle(expressions)]
fn spot<'a>(acts: &mut ActList<'a>, i: &'a Spot) -> Result<(), Memory>
    ensures { OnOk result (acts.new ≡ spot_acts i.now ++ acts.old) }
{
    match &i.form {
        SpotForm::Exactly(e) => scalar(acts, e.get()),
        SpotForm::Last => Ok(()),
        SpotForm::BeforeLast(e) => scalar(acts, e.get()),
    }
}

/// Adds the acts of a set.
#[cycle(expressions)]
pub fn set<'a>(acts: &mut ActList<'a>, e: &'a Set) -> Result<(), Memory>
    ensures { OnOk result (acts.new ≡ set_acts e.now ++ acts.old) }
{
    match &e.form {
        SetForm::SetOf(_, es) => scalars(acts, es.as_slice()),
        SetForm::FullSet(_) => Ok(()),
        SetForm::UseSet(p) => path(acts, false, p),
        SetForm::Combined(_, e, more) => {
            combinations(acts, more.as_slice())?;
            set(acts, e.get())
        }
        SetForm::CallSet(c) => call(acts, c),
    }
}

#[cycle(expressions)]
fn combinations<'a>(acts: &mut ActList<'a>, xs: &'a [SetLink]) -> Result<(), Memory>
    ensures { OnOk result (acts.new ≡ combinations_acts (combinations_view xs.now) ++ acts.old) }
{
    for place in (0..xs.len()).rev() {
        set(acts, &xs[place].set)?;
    }
    Ok(())
}

/// Adds the acts of a pointer.
#[cycle(expressions)]
pub fn pointer<'a>(acts: &mut ActList<'a>, e: &'a Pointer) -> Result<(), Memory>
    ensures { OnOk result (acts.new ≡ pointer_acts e.now ++ acts.old) }
{
    match &e.form {
        PointerForm::Nil { at, collection } => {
            acts.add(ActForm::Naming(*at, Subject::ACollection(*collection)))
        }
        PointerForm::UsePointer(p) => path(acts, false, p),
        PointerForm::CallPointer(c) => call(acts, c),
    }
}

/// Adds the acts of scalars in a row.
#[cycle(expressions)]
pub fn scalars<'a>(acts: &mut ActList<'a>, xs: &'a [Scalar]) -> Result<(), Memory>
    ensures { OnOk result (acts.new ≡ scalars_acts (scalars_view xs.now) ++ acts.old) }
{
    for place in (0..xs.len()).rev() {
        scalar(acts, &xs[place])?;
    }
    Ok(())
}

// What is done to the subject of a place.
fn touch<'a>(acts: &mut ActList<'a>, is_changed: bool, at: At, x: Subject) -> Result<(), Memory>
    ensures { OnOk result (acts.new ≡ lending is_changed at (subject_view x) ∷ acts.old) }
{
    if is_changed {
        acts.add(ActForm::Changing(at, x))
    } else {
        acts.add(ActForm::Reading(at, x))
    }
}

/// Adds the acts of a place, which is changed or read.
#[cycle(expressions)]
pub fn path<'a>(acts: &mut ActList<'a>, is_changed: bool, p: &'a Path) -> Result<(), Memory>
    ensures { OnOk result (acts.new ≡ path_acts (lending is_changed) p.now ++ acts.old) }
{
    selectors(acts, p.steps.as_slice())?;
    match &p.root {
        Root::Name(x) => touch(acts, is_changed, p.at, Subject::AVariable(*x)),
        Root::OpenItem {
            name,
            subscripts: es,
            ..
        } => {
            subscripts(acts, es.as_slice())?;
            touch(acts, is_changed, p.at, Subject::AVariable(*name))
        }
        Root::Element {
            collection,
            pointer: e,
        } => {
            pointer(acts, e.get())?;
            touch(acts, is_changed, p.at, Subject::ACollection(*collection))
        }
        Root::ResultOf { call: c, .. } => call(acts, c),
    }
}

#[cycle(expressions)]
fn selectors<'a>(acts: &mut ActList<'a>, xs: &'a [Selector]) -> Result<(), Memory>
    ensures { OnOk result (acts.new ≡ selectors_acts (selectors_view xs.now) ++ acts.old) }
{
    for place in (0..xs.len()).rev() {
        selector(acts, &xs[place])?;
    }
    Ok(())
}

#[cycle(expressions)]
fn selector<'a>(acts: &mut ActList<'a>, x: &'a Selector) -> Result<(), Memory>
    ensures { OnOk result (acts.new ≡ selector_acts x.now ++ acts.old) }
{
    match x {
        Selector::Field { .. } => Ok(()),
        Selector::VariantField { .. } => Ok(()),
        Selector::Item { subscripts: es, .. } => subscripts(acts, es.as_slice()),
    }
}

#[cycle(expressions)]
fn subscripts<'a>(acts: &mut ActList<'a>, xs: &'a [Subscript]) -> Result<(), Memory>
    ensures { OnOk result (acts.new ≡ subscripts_acts (subscripts_view xs.now) ++ acts.old) }
{
    for place in (0..xs.len()).rev() {
        scalar(acts, &xs[place].index)?;
    }
    Ok(())
}

/// Adds the acts of a call.
#[cycle(expressions)]
pub fn call<'a>(acts: &mut ActList<'a>, c: &'a Call) -> Result<(), Memory>
    ensures { OnOk result (acts.new ≡ call_acts c.now ++ acts.old) }
{
    acts.add(ActForm::Calling {
        at: c.at,
        callee: c.callee,
        invariant: c.invariant,
        actuals: c.actuals.as_slice(),
    })?;
    actuals(acts, c.actuals.as_slice())
}

#[cycle(expressions)]
fn actuals<'a>(acts: &mut ActList<'a>, xs: &'a [Actual]) -> Result<(), Memory>
    ensures { OnOk result (acts.new ≡ actuals_acts (actuals_view xs.now) ++ acts.old) }
{
    for place in (0..xs.len()).rev() {
        actual(acts, &xs[place])?;
    }
    Ok(())
}

#[cycle(expressions)]
fn actual<'a>(acts: &mut ActList<'a>, x: &'a Actual) -> Result<(), Memory>
    ensures { OnOk result (acts.new ≡ actual_acts x.now ++ acts.old) }
{
    match x {
        Actual::Given { value, .. } => simple(acts, value),
        Actual::Lent { is_var, place, .. } => path(acts, *is_var, place),
    }
}

/// Adds the acts of an expression of any sort.
#[cycle(expressions)]
pub fn simple<'a>(acts: &mut ActList<'a>, e: &'a Simple) -> Result<(), Memory>
    ensures { OnOk result (acts.new ≡ simple_acts e.now ++ acts.old) }
{
    match &e.form {
        SimpleForm::AScalar(e) => scalar(acts, e),
        SimpleForm::AText(e) => text(acts, e),
        SimpleForm::ASet(e) => set(acts, e),
        SimpleForm::APointer(e) => pointer(acts, e),
    }
}
