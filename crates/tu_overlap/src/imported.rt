// Actuals that the called routine may see in another way.
ghost use Rattle.std.specs.Prelude.{◌≡◌, length, IfOk, OnOk};
ghost use Rattle.std.specs.Option.{option_map};
ghost use Rattle.tu_core.specs.Acts.{subject_of as subject_in};
ghost use Rattle.tu_core.specs.Overlap.{ImportedIn};
ghost use Rattle.tu_core_expressions.specs.ExpressionViews.{actuals_view};
ghost use Rattle.tu_acts.specs.ActViews.{subject_view};
ghost use Rattle.tu_effects.specs.Least.{IsLeast};
ghost use Rattle.tu_effects.specs.Relations.{IsEffects};
ghost use Rattle.tu_overlap.specs.Faults.{FindsWith, ImportedOne};

use tu_acts::Subject;
use tu_base::Memory;
use tu_core::At;
use tu_core_expressions::{Actual, Path, Root};
use tu_core_types::Program;
use tu_effects::{Effects, at_if, earlier};
use tu_reach::Search;

/// What a path begins with. The result of a call is no subject.
pub fn subject_of(p: &Path) -> Option<Subject>
    ensures { option_map subject_view result ≡ subject_in p.now }
{
    match &p.root {
        Root::Name(x) => Some(Subject::AVariable(*x)),
        Root::OpenItem { name, .. } => Some(Subject::AVariable(*name)),
        Root::Element { collection, .. } => Some(Subject::ACollection(*collection)),
        Root::ResultOf { .. } => None,
    }
}

/// Finds the routines that read or change a subject, or with `false` those that change it.
pub fn find_with(
    effects: &Effects,
    search: &mut Search,
    is_var: bool,
    x: Subject,
) -> Result<(), Memory>
    requires { length search.old ≡ effects.now.callers.texts }
    ensures length { length search.new ≡ length search.old }
    ensures found { OnOk result (FindsWith is_var effects.now (subject_view x) search.new) }
{
    if is_var {
        effects.find_touching(search, x)
    } else {
        effects.find_changing(search, x)
    }
}

fn imported_one(
    program: &Program,
    effects: &Effects,
    search: &mut Search,
    callee: u32,
    actual: &Actual,
) -> Result<Option<At>, Memory>
    requires effects { IsEffects program.now effects.now }
    requires search { length search.old ≡ effects.now.callers.texts }
    ensures length { length search.new ≡ length search.old }
    ensures found { IfOk result (λ found. IsLeast (ImportedOne program.now callee actual.now) found) }
{
    match actual {
        Actual::Given { .. } => Ok(None),
        Actual::Lent {
            at,
            is_var,
            place,
            ..
        } => {
            let Some(x) = subject_of(place) else {
                return Ok(None);
            };
            find_with(effects, search, *is_var, x)?;
            Ok(at_if(search.is_found(callee as usize), *at))
        }
    }
}

/// The first actual of a call that the called routine may see in another way.
pub fn imported_in(
    program: &Program,
    effects: &Effects,
    search: &mut Search,
    callee: u32,
    actuals: &[Actual],
) -> Result<Option<At>, Memory>
    requires effects { IsEffects program.now effects.now }
    requires search { length search.old ≡ effects.now.callers.texts }
    ensures length { length search.new ≡ length search.old }
    ensures found { IfOk result (λ least. IsLeast (ImportedIn program.now callee (actuals_view actuals.now)) least) }
{
    let mut least = None;
    for place in (0..actuals.len()).rev() {
        let found = imported_one(program, effects, search, callee, &actuals[place])?;
        least = earlier(found, least);
    }
    Ok(least)
}
