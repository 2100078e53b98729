ghost use Rattle.std.specs.Prelude.{◌≡◌, ◌≤◌, [], ◌∷◌, List, map, IfOk, if◌then◌else◌};
ghost use Rattle.tu_core.specs.Core.{Element, Name, OpenItem, Pointer};
ghost use Rattle.tu_core.specs.Rooms.{is_same as is_same_of};
ghost use Rattle.tu_core.specs.Walk.{Agree, Apart, AtElements, Differ, Same, behind_brackets, both_brackets, brackets as brackets_of, ended as ended_of, one_subscript as one_subscript_of, walk as walk_of, walk_steps as walk_steps_of};
ghost use Rattle.tu_core.specs.declared.names.At.{At};
ghost use Rattle.tu_core.specs.declared.targets.Index.{Index};
ghost use Rattle.tu_core_expressions.specs.ExpressionViews.{selectors_view, subscripts_view};
ghost use Rattle.tu_overlap.specs.Verdicts.{brackets_view, noted_view, step_brackets, verdict_view};

use sqlite_items::Items;
use std::alloc::Global;
use tu_acts::Subject;
use tu_base::Memory;
use tu_core::Variable;
use tu_core_expressions::{Path, Root, Selector, Subscript};
use tu_effects::is_one;

/// Where two places are equal if they are the same: the elements of a collection at their roots,
/// or the components at a position of both ways.
#[derive(Clone, Copy, PartialEq, Eq)]
pub enum Noted {
    AtElements,
    AtStep(usize),
}

/// What the walk along two places finds.
#[derive(Drop)]
pub enum Verdict {
    /// They never are the same.
    Apart,
    /// They always are.
    Same,
    /// They are where all that was noted is equal.
    Maybe(Items<Noted>),
}

/// What two brackets are.
#[derive(Clone, Copy, PartialEq, Eq)]
enum Brackets {
    /// A pair of constants is different.
    Differ,
    /// All are equal constants.
    Agree,
    Unknown,
}

impl Brackets {
    fn and(self, other: Brackets) -> Brackets
        ensures { brackets_view result ≡ both_brackets (brackets_view self) (brackets_view other) }
    {
        match self {
            Brackets::Differ => Brackets::Differ,
            Brackets::Agree => other,
            Brackets::Unknown => match other {
                Brackets::Differ => Brackets::Differ,
                Brackets::Agree => Brackets::Unknown,
                Brackets::Unknown => Brackets::Unknown,
            },
        }
    }
}

fn component(is_equal: bool) -> Brackets
    ensures { brackets_view result ≡ (if is_equal then Agree else Differ) }
{
    if is_equal {
        Brackets::Agree
    } else {
        Brackets::Differ
    }
}

fn one_subscript(first: Option<i32>, second: Option<i32>) -> Brackets
    ensures { brackets_view result ≡ one_subscript_of first second }
{
    match first {
        None => Brackets::Unknown,
        Some(a) => match second {
            None => Brackets::Unknown,
            Some(b) => component(a == b),
        },
    }
}

fn compare_brackets(first: &[Subscript], second: &[Subscript]) -> Brackets
    ensures { brackets_view result ≡ brackets_of (subscripts_view first.now) (subscripts_view second.now) }
{
    let mut found = Brackets::Agree;
    for place in (0..first.len().min(second.len())).rev() {
        found = one_subscript(first[place].constant, second[place].constant).and(found);
    }
    found
}

// One step of two ways from one place. Steps of two forms do not come from one.
fn one_step(first: &Selector, second: &Selector) -> Brackets
    ensures { brackets_view result ≡ step_brackets first.now second.now }
{
    match first {
        Selector::Field { component: a, .. } => match second {
            Selector::Field { component: b, .. } => component(*a == *b),
            Selector::VariantField { .. } => Brackets::Differ,
            Selector::Item { .. } => Brackets::Differ,
        },
        Selector::VariantField { component: a, .. } => match second {
            Selector::Field { .. } => Brackets::Differ,
            Selector::VariantField { component: b, .. } => component(*a == *b),
            Selector::Item { .. } => Brackets::Differ,
        },
        Selector::Item { subscripts: a, .. } => match second {
            Selector::Field { .. } => Brackets::Differ,
            Selector::VariantField { .. } => Brackets::Differ,
            Selector::Item { subscripts: b, .. } => compare_brackets(a.as_slice(), b.as_slice()),
        },
    }
}

fn ended(noted: Items<Noted>) -> Verdict
    ensures { verdict_view result ≡ ended_of (map noted_view noted) }
{
    if noted.is_empty() {
        Verdict::Same
    } else {
        Verdict::Maybe(noted)
    }
}

// From a position of both ways on, with what was noted before.
fn walk_steps(
    position: usize,
    noted: Items<Noted>,
    first: &[Selector],
    second: &[Selector],
) -> Result<Verdict, Memory>
    requires { position ≤ 1 }
    ensures { IfOk result (λ verdict. verdict_view verdict ≡ walk_steps_of position (map noted_view noted) (selectors_view first.now) (selectors_view second.now)) }
{
    let mut noted = noted;
    for place in 0..first.len().min(second.len()) {
        match one_step(&first[place], &second[place]) {
            Brackets::Differ => return Ok(Verdict::Apart),
            Brackets::Agree => {}
            Brackets::Unknown => noted.push(Noted::AtStep(position + place))?,
        }
    }
    Ok(ended(noted))
}

fn is_same(x: Variable, y: Variable) -> bool
    ensures { result ≡ is_same_of x y }
{
    is_one(Subject::AVariable(x), Subject::AVariable(y))
}

// Two elements of arrays with run-time bounds, of one name.
fn walk_items(
    alloc: Global,
    first: &[Subscript],
    second: &[Subscript],
    steps: &[Selector],
    others: &[Selector],
) -> Result<Verdict, Memory>
    ensures { IfOk result (λ verdict. verdict_view verdict ≡ behind_brackets (brackets_of (subscripts_view first.now) (subscripts_view second.now)) 0 [] (λ noted. walk_steps_of 1 noted (selectors_view steps.now) (selectors_view others.now))) }
{
    let mut noted = Items::new(alloc);
    match compare_brackets(first, second) {
        Brackets::Differ => return Ok(Verdict::Apart),
        Brackets::Agree => {}
        Brackets::Unknown => noted.push(Noted::AtStep(0))?,
    }
    walk_steps(1, noted, steps, others)
}

fn walk_elements(alloc: Global, steps: &[Selector], others: &[Selector]) -> Result<Verdict, Memory>
    ensures { IfOk result (λ verdict. verdict_view verdict ≡ walk_steps_of 0 (AtElements ∷ []) (selectors_view steps.now) (selectors_view others.now)) }
{
    let mut noted = Items::new(alloc);
    noted.push(Noted::AtElements)?;
    walk_steps(0, noted, steps, others)
}

fn same_if(is_same: bool) -> Verdict
    ensures { verdict_view result ≡ (if is_same then Same else Apart) }
{
    if is_same {
        Verdict::Same
    } else {
        Verdict::Apart
    }
}

// The places of a variable, and of an element of a variable with run-time bounds.
fn walk_name(
    alloc: Global,
    x: Variable,
    steps: &[Selector],
    other: &Path,
) -> Result<Verdict, Memory>
    ensures { IfOk result (λ verdict. (at : At) → verdict_view verdict ≡ walk_of (Name at x (selectors_view steps.now)) other.now) }
{
    match &other.root {
        Root::Name(y) => {
            if is_same(x, *y) {
                walk_steps(0, Items::new(alloc), steps, other.steps.as_slice())
            } else {
                Ok(Verdict::Apart)
            }
        }
        Root::OpenItem { name, .. } => Ok(same_if(is_same(x, *name))),
        Root::Element { .. } => Ok(Verdict::Apart),
        Root::ResultOf { .. } => Ok(Verdict::Apart),
    }
}

fn walk_item(
    alloc: Global,
    x: Variable,
    subscripts: &[Subscript],
    steps: &[Selector],
    other: &Path,
) -> Result<Verdict, Memory>
    ensures { IfOk result (λ verdict. (at : At) (indexes : List Index) → verdict_view verdict ≡ walk_of (OpenItem at x indexes (subscripts_view subscripts.now) (selectors_view steps.now)) other.now) }
{
    match &other.root {
        Root::Name(y) => Ok(same_if(is_same(x, *y))),
        Root::OpenItem {
            name,
            subscripts: others,
            ..
        } => {
            if is_same(x, *name) {
                walk_items(
                    alloc,
                    subscripts,
                    others.as_slice(),
                    steps,
                    other.steps.as_slice(),
                )
            } else {
                Ok(Verdict::Apart)
            }
        }
        Root::Element { .. } => Ok(Verdict::Apart),
        Root::ResultOf { .. } => Ok(Verdict::Apart),
    }
}

fn walk_element(
    alloc: Global,
    collection: u32,
    steps: &[Selector],
    other: &Path,
) -> Result<Verdict, Memory>
    ensures { IfOk result (λ verdict. (at : At) (e : Pointer) → verdict_view verdict ≡ walk_of (Element at collection e (selectors_view steps.now)) other.now) }
{
    match &other.root {
        Root::Name(_) => Ok(Verdict::Apart),
        Root::OpenItem { .. } => Ok(Verdict::Apart),
        Root::Element { collection: d, .. } => {
            if collection == *d {
                walk_elements(alloc, steps, other.steps.as_slice())
            } else {
                Ok(Verdict::Apart)
            }
        }
        Root::ResultOf { .. } => Ok(Verdict::Apart),
    }
}

/// The walk along two places. A call's result is no other place.
pub fn walk(alloc: Global, first: &Path, second: &Path) -> Result<Verdict, Memory>
    ensures { IfOk result (λ verdict. verdict_view verdict ≡ walk_of first.now second.now) }
{
    let steps = first.steps.as_slice();
    match &first.root {
        Root::Name(x) => walk_name(alloc, *x, steps, second),
        Root::OpenItem {
            name,
            subscripts,
            ..
        } => walk_item(alloc, *name, subscripts.as_slice(), steps, second),
        Root::Element { collection, .. } => walk_element(alloc, *collection, steps, second),
        Root::ResultOf { .. } => Ok(Verdict::Apart),
    }
}
