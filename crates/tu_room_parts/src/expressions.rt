// What expressions and places add to a sum.
ghost use Rattle.std.specs.Prelude.{◌≡◌, ◌+◌};
ghost use Rattle.tu_core.specs.Measures.{of_scalar, of_links, of_text, of_texts, of_cuts, of_spot, of_set, of_combinations, of_pointer, of_scalars, of_optional, of_path, of_selectors, of_subscripts, of_call, of_actuals, of_simple};
ghost use Rattle.tu_core_expressions.specs.ExpressionViews.{links_view, texts_view, cuts_view, combinations_view, scalars_view, optional_view, subscripts_view, selectors_view, actuals_view};
ghost use Rattle.tu_room_parts.specs.Capped.{capped};
ghost use Rattle.tu_room_parts.specs.Counts.{counting};
ghost use Rattle.tu_room_parts.specs.Rows.{one_link, one_cut, one_selector, one_actual};

use crate::Count;
use crate::capped::plus;
use crate::own::{
    own_path, own_set, own_text, pointer_nodes, scalar_nodes, spot_nodes, where_nodes,
};
use sqlite_items::Boxed;
use tu_core_expressions::{
    Actual, Call, Cut, Link, Path, Pointer, PointerForm, Root, Scalar, ScalarForm, Selector, Set,
    SetForm, SetLink, Simple, SimpleForm, Spot, SpotForm, Subscript, Text, TextForm,
};

/// What a scalar adds.
#[cycle(expressions)]
pub fn scalar(count: &Count, e: &Scalar) -> u64
    ensures { result ≡ of_scalar (counting count.now) e.now }
{
    let own = where_nodes(count, scalar_nodes(e));
    match &e.form {
        ScalarForm::Literal(_) => own,
        ScalarForm::Use(p) => plus(own, path(count, p)),
        ScalarForm::Prefixed(_, e) => plus(own, scalar(count, e.get())),
        ScalarForm::Chain(e, more) => {
            plus(
                own,
                plus(scalar(count, e.get()), links(count, more.as_slice())),
            )
        }
        ScalarForm::CompareTexts(_, a, b) => plus(own, two_texts(count, a, b)),
        ScalarForm::CompareSets(_, _, a, b) => {
            plus(own, plus(set(count, a.get()), set(count, b.get())))
        }
        ScalarForm::ComparePointers { left, right, .. } => {
            plus(own, two_pointers(count, left, right))
        }
        ScalarForm::Member {
            element,
            set: s,
            ..
        } => { plus(own, plus(scalar(count, element.get()), set(count, s.get()))) }
        ScalarForm::Length(e) => plus(own, text(count, e.get())),
        ScalarForm::PlaceIn(a, b) => plus(own, two_texts(count, a, b)),
        ScalarForm::ByteOf(e) => plus(own, text(count, e.get())),
        ScalarForm::TextInt(e) => plus(own, text(count, e.get())),
        ScalarForm::Bound {
            place,
            dimension,
            ..
        } => { plus(own, plus(path(count, place), inner(count, dimension))) }
        ScalarForm::AtEnd { stream, .. } => plus(own, inner(count, stream)),
        ScalarForm::CallScalar(c) => plus(own, call(count, c)),
    }
}

#[cycle(expressions)]
fn two_texts(count: &Count, a: &Boxed<Text>, b: &Boxed<Text>) -> u64
    ensures { result ≡ capped (of_text (counting count.now) a.now + of_text (counting count.now) b.now) }
{
    plus(text(count, a.get()), text(count, b.get()))
}

#[cycle(expressions)]
fn two_pointers(count: &Count, a: &Boxed<Pointer>, b: &Boxed<Pointer>) -> u64
    ensures { result ≡ capped (of_pointer (counting count.now) a.now + of_pointer (counting count.now) b.now) }
{
    plus(pointer(count, a.get()), pointer(count, b.get()))
}

#[cycle(expressions)]
fn inner(count: &Count, e: &Option<Boxed<Scalar>>) -> u64
    ensures { result ≡ of_optional (counting count.now) (optional_view e.now) }
{
    match e {
        None => 0,
        Some(e) => scalar(count, e.get()),
    }
}

#[cycle(expressions)]
fn links(count: &Count, xs: &[Link]) -> u64
    ensures { result ≡ of_links (counting count.now) (links_view xs.now) }
{
    let mut sum = 0;
    for x in xs {
        sum = plus(sum, link(count, x));
    }
    sum
}

#[cycle(expressions)]
fn link(count: &Count, x: &Link) -> u64
    ensures { result ≡ one_link (counting count.now) x.now }
{
    match x {
        Link::Operate(_, e) => plus(where_nodes(count, 1), scalar(count, e)),
        Link::Decide(_, e) => plus(where_nodes(count, 1), scalar(count, e)),
    }
}

/// What a text adds.
#[cycle(expressions)]
pub fn text(count: &Count, e: &Text) -> u64
    ensures { result ≡ of_text (counting count.now) e.now }
{
    let own = own_text(count, e);
    match &e.form {
        TextForm::Written(_) => own,
        TextForm::UseText(p) => plus(own, path(count, p)),
        TextForm::Joined(e, more) => {
            plus(
                own,
                plus(text(count, e.get()), texts(count, more.as_slice())),
            )
        }
        TextForm::Cut(e, more) => {
            plus(
                own,
                plus(text(count, e.get()), cuts(count, more.as_slice())),
            )
        }
        TextForm::Character(e) => plus(own, scalar(count, e.get())),
        TextForm::IntText { number, width } => {
            plus(own, plus(scalar(count, number.get()), inner(count, width)))
        }
        TextForm::Repeat(e, k) => plus(own, plus(text(count, e.get()), scalar(count, k.get()))),
        TextForm::CallText(c) => plus(own, call(count, c)),
    }
}

#[cycle(expressions)]
fn texts(count: &Count, xs: &[Text]) -> u64
    ensures { result ≡ of_texts (counting count.now) (texts_view xs.now) }
{
    let mut sum = 0;
    for x in xs {
        sum = plus(sum, plus(where_nodes(count, 1), text(count, x)));
    }
    sum
}

#[cycle(expressions)]
fn cuts(count: &Count, xs: &[Cut]) -> u64
    ensures { result ≡ of_cuts (counting count.now) (cuts_view xs.now) }
{
    let mut sum = 0;
    for x in xs {
        sum = plus(sum, cut(count, x));
    }
    sum
}

#[cycle(expressions)]
fn cut(count: &Count, x: &Cut) -> u64
    ensures { result ≡ one_cut (counting count.now) x.now }
{
    match x {
        Cut::CutCharacter(i) => plus(where_nodes(count, 1), spot(count, i)),
        Cut::CutPart { first, last } => {
            plus(
                where_nodes(count, 1),
                plus(spot(count, first), spot(count, last)),
            )
        }
    }
}

#[cycle(expressions)]
fn spot(count: &Count, i: &Spot) -> u64
    ensures { result ≡ of_spot (counting count.now) i.now }
{
    let own = where_nodes(count, spot_nodes(i));
    match &i.form {
        SpotForm::Exactly(e) => plus(own, scalar(count, e.get())),
        SpotForm::Last => own,
        SpotForm::BeforeLast(e) => plus(own, scalar(count, e.get())),
    }
}

#[cycle(expressions)]
fn set(count: &Count, e: &Set) -> u64
    ensures { result ≡ of_set (counting count.now) e.now }
{
    let own = own_set(count, e);
    match &e.form {
        SetForm::SetOf(_, es) => plus(own, scalars(count, es.as_slice())),
        SetForm::FullSet(_) => own,
        SetForm::UseSet(p) => plus(own, path(count, p)),
        SetForm::Combined(_, e, more) => {
            plus(
                own,
                plus(set(count, e.get()), combinations(count, more.as_slice())),
            )
        }
        SetForm::CallSet(c) => plus(own, call(count, c)),
    }
}

#[cycle(expressions)]
fn combinations(count: &Count, xs: &[SetLink]) -> u64
    ensures { result ≡ of_combinations (counting count.now) (combinations_view xs.now) }
{
    let mut sum = 0;
    for x in xs {
        sum = plus(sum, plus(where_nodes(count, 1), set(count, &x.set)));
    }
    sum
}

#[cycle(expressions)]
fn pointer(count: &Count, e: &Pointer) -> u64
    ensures { result ≡ of_pointer (counting count.now) e.now }
{
    let own = where_nodes(count, pointer_nodes(e));
    match &e.form {
        PointerForm::Nil { .. } => own,
        PointerForm::UsePointer(p) => plus(own, path(count, p)),
        PointerForm::CallPointer(c) => plus(own, call(count, c)),
    }
}

/// What scalars in a row add.
#[cycle(expressions)]
pub fn scalars(count: &Count, xs: &[Scalar]) -> u64
    ensures { result ≡ of_scalars (counting count.now) (scalars_view xs.now) }
{
    let mut sum = 0;
    for x in xs {
        sum = plus(sum, scalar(count, x));
    }
    sum
}

/// What a place adds.
#[cycle(expressions)]
pub fn path(count: &Count, p: &Path) -> u64
    ensures { result ≡ of_path (counting count.now) p.now }
{
    let own = own_path(count, p);
    let behind = selectors(count, p.steps.as_slice());
    match &p.root {
        Root::Name(_) => plus(own, behind),
        Root::OpenItem { subscripts: es, .. } => {
            let brackets = subscripts(count, es.as_slice());
            plus(own, plus(where_nodes(count, 1), plus(brackets, behind)))
        }
        Root::Element { pointer: e, .. } => plus(own, plus(pointer(count, e.get()), behind)),
        Root::ResultOf { call: c, .. } => plus(own, plus(call(count, c), behind)),
    }
}

#[cycle(expressions)]
fn selectors(count: &Count, xs: &[Selector]) -> u64
    ensures { result ≡ of_selectors (counting count.now) (selectors_view xs.now) }
{
    let mut sum = 0;
    for x in xs {
        sum = plus(sum, selector(count, x));
    }
    sum
}

#[cycle(expressions)]
fn selector(count: &Count, x: &Selector) -> u64
    ensures { result ≡ one_selector (counting count.now) x.now }
{
    match x {
        Selector::Field { .. } => where_nodes(count, 1),
        Selector::VariantField { .. } => where_nodes(count, 1),
        Selector::Item { subscripts: es, .. } => {
            plus(where_nodes(count, 1), subscripts(count, es.as_slice()))
        }
    }
}

#[cycle(expressions)]
fn subscripts(count: &Count, xs: &[Subscript]) -> u64
    ensures { result ≡ of_subscripts (counting count.now) (subscripts_view xs.now) }
{
    let mut sum = 0;
    for x in xs {
        sum = plus(sum, scalar(count, &x.index));
    }
    sum
}

/// What a call adds.
#[cycle(expressions)]
pub fn call(count: &Count, c: &Call) -> u64
    ensures { result ≡ of_call (counting count.now) c.now }
{
    plus(0, actuals(count, c.actuals.as_slice()))
}

#[cycle(expressions)]
fn actuals(count: &Count, xs: &[Actual]) -> u64
    ensures { result ≡ of_actuals (counting count.now) (actuals_view xs.now) }
{
    let mut sum = 0;
    for x in xs {
        sum = plus(sum, actual(count, x));
    }
    sum
}

#[cycle(expressions)]
fn actual(count: &Count, x: &Actual) -> u64
    ensures { result ≡ one_actual (counting count.now) x.now }
{
    match x {
        Actual::Given { value, .. } => plus(0, simple(count, value)),
        Actual::Lent { place, .. } => plus(0, path(count, place)),
    }
}

/// What an expression of any sort adds.
#[cycle(expressions)]
pub fn simple(count: &Count, e: &Simple) -> u64
    ensures { result ≡ of_simple (counting count.now) e.now }
{
    match &e.form {
        SimpleForm::AScalar(e) => scalar(count, e),
        SimpleForm::AText(e) => text(count, e),
        SimpleForm::ASet(e) => set(count, e),
        SimpleForm::APointer(e) => pointer(count, e),
    }
}
