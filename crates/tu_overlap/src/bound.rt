// What may not stand in the scope of a `bind`.
ghost use Rattle.std.specs.Prelude.{◌≡◌, ◌↔◌, length, IfOk, IsTrue};
ghost use Rattle.tu_core.specs.Effects.{Among};
ghost use Rattle.tu_core.specs.Overlap.{ChangesAt};
ghost use Rattle.tu_acts.specs.ActViews.{subject_view};
ghost use Rattle.tu_effects.specs.Least.{IsLeast};
ghost use Rattle.tu_effects.specs.Relations.{IsEffects};
ghost use Rattle.tu_overlap.specs.Faults.{BreaksBind, CallsMarked, FindsWith, IsBroken, NamesAt};

use crate::imported::{find_with, subject_of};
use tu_acts::{Act, ActForm, Subject};
use tu_base::Memory;
use tu_core::At;
use tu_core_expressions::Path;
use tu_core_types::Program;
use tu_effects::{Effects, at_if, earlier, is_one};
use tu_reach::Search;

// A call of what was found, also as the invariant of a module.
fn calls_found(found: &Search, callee: u32, invariant: Option<u32>) -> bool
    ensures { IsTrue result ↔ CallsMarked found.now callee invariant }
{
    if found.is_found(callee as usize) {
        return true;
    }
    match invariant {
        None => false,
        Some(invariant) => found.is_found(invariant as usize),
    }
}

fn changes_at(x: Subject, act: &Act) -> Option<At>
    ensures { IsLeast (ChangesAt (subject_view x) act.now) result }
{
    match &act.form {
        ActForm::Changing(at, y) => at_if(is_one(x, *y), *at),
        ActForm::Declaring(at, y) => at_if(is_one(x, Subject::AVariable(*y)), *at),
        ActForm::Defining(at, y) => at_if(is_one(x, Subject::AVariable(y.name)), *at),
        ActForm::Reading(_, _) => None,
        ActForm::Naming(_, _) => None,
        ActForm::Talking(_) => None,
        ActForm::Calling { .. } => None,
        ActForm::Binding { .. } => None,
        ActForm::Fixing { .. } => None,
    }
}

// An act that names the subject, where it is hidden.
fn names_at(is_var: bool, x: Subject, at: At, y: Subject) -> Option<At>
    ensures { IsLeast (NamesAt is_var (subject_view x) at (subject_view y)) result }
{
    if !is_var {
        return None;
    }
    at_if(is_one(x, y), at)
}

fn act_breaks(
    program: &Program,
    effects: &Effects,
    found: &Search,
    is_var: bool,
    x: Subject,
    act: &Act,
) -> Option<At>
    requires effects { IsEffects program.now effects.now }
    requires found { FindsWith is_var effects.now (subject_view x) found.now }
    ensures { IsLeast (IsBroken is_var program.now (subject_view x) act.now) result }
{
    match &act.form {
        ActForm::Calling {
            at,
            callee,
            invariant,
            ..
        } => at_if(calls_found(found, *callee, *invariant), *at),
        ActForm::Reading(at, y) => names_at(is_var, x, *at, *y),
        ActForm::Naming(at, y) => names_at(is_var, x, *at, *y),
        ActForm::Changing(_, _) => changes_at(x, act),
        ActForm::Declaring(_, _) => changes_at(x, act),
        ActForm::Defining(_, _) => changes_at(x, act),
        ActForm::Talking(_) => None,
        ActForm::Binding { .. } => None,
        ActForm::Fixing { .. } => None,
    }
}

fn scope_breaks(
    program: &Program,
    effects: &Effects,
    found: &Search,
    is_var: bool,
    x: Subject,
    scope: &[Act],
) -> Option<At>
    requires effects { IsEffects program.now effects.now }
    requires found { FindsWith is_var effects.now (subject_view x) found.now }
    ensures { IsLeast (Among (IsBroken is_var program.now (subject_view x)) scope.now) result }
{
    let mut least = None;
    for act in scope {
        least = earlier(least, act_breaks(program, effects, found, is_var, x, act));
    }
    least
}

/// The first act in the scope of a `bind` that breaks its rule.
pub fn bind_broken(
    program: &Program,
    effects: &Effects,
    search: &mut Search,
    is_var: bool,
    p: &Path,
    scope: &[Act],
) -> Result<Option<At>, Memory>
    requires effects { IsEffects program.now effects.now }
    requires search { length search.old ≡ effects.now.callers.texts }
    ensures length { length search.new ≡ length search.old }
    ensures found { IfOk result (λ least. IsLeast (BreaksBind is_var program.now p.now scope.now) least) }
{
    let Some(x) = subject_of(p) else {
        return Ok(None);
    };
    find_with(effects, search, is_var, x)?;
    Ok(scope_breaks(program, effects, search, is_var, x, scope))
}
