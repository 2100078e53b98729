// What statements without blocks add to a sum.
ghost use Rattle.std.specs.Prelude.{◌≡◌, [], ◌∷◌};
ghost use Rattle.tu_core.specs.Measures.{of_optional, of_shown, of_taken, of_plain, of_test};
ghost use Rattle.tu_core.specs.Nodes.{taken_nodes as taken_nodes_of, plain_nodes as plain_nodes_of};
ghost use Rattle.tu_core_expressions.specs.ExpressionViews.{optional_view};
ghost use Rattle.tu_core_types.specs.StatementViews.{shown_view, taken_view};
ghost use Rattle.tu_room_parts.specs.Counts.{counting};
ghost use Rattle.tu_room_counts.specs.StatementRows.{one_shown as one_shown_of, one_taken as one_taken_of};

use tu_core_expressions::Scalar;
use tu_core_types::{Plain, PlainForm, Shown, Taken, Test};
use tu_room_parts::{Count, call, path, plus, scalar, simple, text, where_nodes};

/// What an expression adds that may be left out.
pub fn maybe(count: &Count, e: &Option<Scalar>) -> u64
    ensures { result ≡ of_optional (counting count.now) (optional_view e.now) }
{
    match e {
        None => 0,
        Some(e) => scalar(count, e),
    }
}

/// What the invariant of a loop adds, where it has one.
pub fn test(count: &Count, t: &Option<Test>) -> u64
    ensures { result ≡ of_test (counting count.now) t.now }
{
    match t {
        None => 0,
        Some(t) => plus(where_nodes(count, 1), scalar(count, &t.condition)),
    }
}

fn one_shown(count: &Count, x: &Shown) -> u64
    ensures { result ≡ one_shown_of (counting count.now) x.now }
{
    match x {
        Shown::ShowInt { value, width } => plus(scalar(count, value), maybe(count, width)),
        Shown::ShowTruth { value, width } => plus(scalar(count, value), maybe(count, width)),
        Shown::ShowText { value, width } => plus(text(count, value), maybe(count, width)),
    }
}

fn shown(count: &Count, xs: &[Shown]) -> u64
    ensures { result ≡ of_shown (counting count.now) (shown_view xs.now) }
{
    let mut sum = 0;
    for x in xs {
        sum = plus(sum, one_shown(count, x));
    }
    sum
}

fn taken_nodes(x: &Taken) -> u64
    ensures { result ≡ taken_nodes_of (taken_view (x.now ∷ [])) }
{
    match x {
        Taken::TakeInt(_, _) => 0,
        Taken::TakeTruth(_) => 0,
        Taken::TakeToken(_, _) => 0,
        Taken::TakeLine(_, _) => 1,
        Taken::TakeCount { .. } => 0,
    }
}

fn one_taken(count: &Count, x: &Taken) -> u64
    ensures { result ≡ one_taken_of (counting count.now) x.now }
{
    let own = where_nodes(count, taken_nodes(x));
    match x {
        Taken::TakeInt(_, p) => plus(own, path(count, p)),
        Taken::TakeTruth(p) => plus(own, path(count, p)),
        Taken::TakeToken(_, p) => plus(own, path(count, p)),
        Taken::TakeLine(_, p) => plus(own, path(count, p)),
        Taken::TakeCount {
            place,
            count: e,
            ..
        } => { plus(own, plus(path(count, place), scalar(count, e))) }
    }
}

fn taken(count: &Count, xs: &[Taken]) -> u64
    ensures { result ≡ of_taken (counting count.now) (taken_view xs.now) }
{
    let mut sum = 0;
    for x in xs {
        sum = plus(sum, one_taken(count, x));
    }
    sum
}

fn plain_nodes(s: &Plain) -> u64
    ensures { result ≡ plain_nodes_of s.now }
{
    match &s.form {
        PlainForm::Assign(_, _, _) => 1,
        PlainForm::Copy { .. } => 1,
        PlainForm::Exit { .. } => 1,
        PlainForm::Return => 1,
        PlainForm::Give(_, _) => 1,
        PlainForm::GiveCopy { .. } => 1,
        PlainForm::Check(_, _) => 1,
        PlainForm::New { .. } => 2,
        PlainForm::Free { .. } => 2,
        PlainForm::Tag { .. } => 1,
        PlainForm::Put { .. } => 1,
        PlainForm::Get { .. } => 1,
        PlainForm::OpenStream { .. } => 1,
        PlainForm::Close(_) => 1,
        PlainForm::Do(_) => 1,
        PlainForm::Quit { .. } => 1,
    }
}

/// What a statement without blocks adds.
pub fn plain(count: &Count, s: &Plain) -> u64
    ensures { result ≡ of_plain (counting count.now) s.now }
{
    let own = where_nodes(count, plain_nodes(s));
    match &s.form {
        PlainForm::Assign(_, p, e) => plus(own, plus(path(count, p), simple(count, e))),
        PlainForm::Copy { to, from, .. } => plus(own, plus(path(count, to), path(count, from))),
        PlainForm::Exit { condition } => plus(own, maybe(count, condition)),
        PlainForm::Return => own,
        PlainForm::Give(_, e) => plus(own, simple(count, e)),
        PlainForm::GiveCopy { place, .. } => plus(own, path(count, place)),
        PlainForm::Check(_, e) => plus(own, scalar(count, e)),
        PlainForm::New { place, .. } => plus(own, path(count, place)),
        PlainForm::Free { place, .. } => plus(own, path(count, place)),
        PlainForm::Tag { place, value, .. } => {
            plus(own, plus(path(count, place), scalar(count, value)))
        }
        PlainForm::Put {
            stream,
            shown: xs,
            ..
        } => { plus(own, plus(maybe(count, stream), shown(count, xs.as_slice()))) }
        PlainForm::Get { stream, taken: xs } => {
            plus(own, plus(maybe(count, stream), taken(count, xs.as_slice())))
        }
        PlainForm::OpenStream { place, name, .. } => {
            plus(own, plus(path(count, place), text(count, name)))
        }
        PlainForm::Close(e) => plus(own, scalar(count, e)),
        PlainForm::Do(c) => plus(own, call(count, c)),
        PlainForm::Quit { number } => plus(own, maybe(count, number)),
    }
}
