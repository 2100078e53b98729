// What a function does outside: changes of what is not its own, and input and output.
ghost use Rattle.std.specs.Prelude.{◌≡◌, ◌↔◌, true, IsTrue};
ghost use Rattle.tu_core.specs.Acts.{routine_acts};
ghost use Rattle.tu_core.specs.Effects.{Among, CallsProcedure, ChangesOutside, IsProcedure, TalksOutside, is_outer};
ghost use Rattle.tu_acts.specs.ActViews.{subject_view};
ghost use Rattle.tu_acts.specs.Texts.{AreTexts};
ghost use Rattle.tu_reach.specs.Marks.{IsMarked};
ghost use Rattle.tu_effects.specs.Faults.{DoesOutside, FunctionDoes, HasFault, kind_of};
ghost use Rattle.tu_effects.specs.Least.{IsLeast};
ghost use Rattle.tu_effects.specs.Relations.{IsEffects};

use crate::formals::is_function;
use crate::{Effects, at_if, earlier, is_outer};
use tu_acts::{Act, ActForm, Subject, Texts};
use tu_core::At;
use tu_core_types::{Program, Routine};
use tu_reach::Search;

/// What a function may not do.
#[derive(Clone, Copy, PartialEq, Eq)]
pub enum Deed {
    Writes,
    Talks,
}

fn is_procedure(program: &Program, number: u32) -> bool
    ensures { IsTrue result ↔ IsProcedure program.now number }
{
    match program.routines.get(number as usize) {
        None => false,
        Some(r) => !is_function(r),
    }
}

fn calls_found(program: &Program, found: &Search, at: At, callee: u32) -> Option<At>
    ensures { IsLeast (λ b. IsProcedure program.now callee × IsMarked found.now callee × (b ≡ at)) result }
{
    if !is_procedure(program, callee) {
        return None;
    }
    at_if(found.is_found(callee as usize), at)
}

fn changes_outer(at: At, x: Subject) -> Option<At>
    ensures { IsLeast (λ b. (is_outer (subject_view x) ≡ true) × (b ≡ at)) result }
{
    at_if(is_outer(x), at)
}

fn changes_outside(program: &Program, effects: &Effects, act: &Act) -> Option<At>
    requires { IsEffects program.now effects.now }
    ensures { IsLeast (ChangesOutside program.now act.now) result }
{
    match &act.form {
        ActForm::Changing(at, x) => changes_outer(*at, *x),
        ActForm::Declaring(at, x) => changes_outer(*at, Subject::AVariable(*x)),
        ActForm::Defining(at, x) => changes_outer(*at, Subject::AVariable(x.name)),
        ActForm::Calling { at, callee, .. } => calls_found(program, &effects.writes, *at, *callee),
        ActForm::Reading(_, _) => None,
        ActForm::Naming(_, _) => None,
        ActForm::Talking(_) => None,
        ActForm::Binding { .. } => None,
        ActForm::Fixing { .. } => None,
    }
}

fn talks_outside(program: &Program, effects: &Effects, act: &Act) -> Option<At>
    requires { IsEffects program.now effects.now }
    ensures { IsLeast (TalksOutside program.now act.now) result }
{
    match &act.form {
        ActForm::Talking(at) => Some(*at),
        ActForm::Calling { at, callee, .. } => calls_found(program, &effects.talks, *at, *callee),
        ActForm::Reading(_, _) => None,
        ActForm::Changing(_, _) => None,
        ActForm::Naming(_, _) => None,
        ActForm::Binding { .. } => None,
        ActForm::Declaring(_, _) => None,
        ActForm::Defining(_, _) => None,
        ActForm::Fixing { .. } => None,
    }
}

fn act_outside(program: &Program, effects: &Effects, deed: Deed, act: &Act) -> Option<At>
    requires { IsEffects program.now effects.now }
    ensures { IsLeast (DoesOutside deed program.now act.now) result }
{
    match deed {
        Deed::Writes => changes_outside(program, effects, act),
        Deed::Talks => talks_outside(program, effects, act),
    }
}

fn acts_outside(program: &Program, effects: &Effects, deed: Deed, acts: &[Act]) -> Option<At>
    requires { IsEffects program.now effects.now }
    ensures { IsLeast (Among (DoesOutside deed program.now) acts.now) result }
{
    let mut least = None;
    for act in acts {
        least = earlier(least, act_outside(program, effects, deed, act));
    }
    least
}

fn routine_outside(
    program: &Program,
    effects: &Effects,
    deed: Deed,
    r: &Routine,
    acts: &[Act],
) -> Option<At>
    requires effects { IsEffects program.now effects.now }
    requires acts { acts.now ≡ routine_acts r.now }
    ensures { IsLeast (FunctionDoes deed program.now r.now) result }
{
    if is_function(r) {
        acts_outside(program, effects, deed, acts)
    } else {
        None
    }
}

/// The first place where a function does this.
pub fn function_does(program: &Program, texts: &Texts, effects: &Effects, deed: Deed) -> Option<At>
    requires effects { IsEffects program.now effects.now }
    requires texts { AreTexts program.now texts.now }
    ensures { IsLeast (HasFault program.now (kind_of deed)) result }
{
    let routines = program.routines.as_slice();
    let texts = texts.routines.as_slice();
    let mut least = None;
    for place in 0..routines.len() {
        let acts = texts[place].as_slice();
        least = earlier(
            least,
            routine_outside(program, effects, deed, &routines[place], acts),
        );
    }
    least
}
