// The faults of overlap, kind by kind, over all texts of a program.
ghost use Rattle.std.specs.Prelude.{◌≡◌, length, IfOk};
ghost use Rattle.tu_core.specs.Effects.{Among, tails};
ghost use Rattle.tu_core_expressions.specs.ExpressionViews.{actuals_view};
ghost use Rattle.tu_acts.specs.Texts.{AreTexts};
ghost use Rattle.tu_effects.specs.Least.{IsLeast};
ghost use Rattle.tu_effects.specs.Relations.{IsEffects};
ghost use Rattle.tu_overlap.specs.Faults.{CallHas, HasFault, HasFaultIn, is_of_bind as is_of_bind_of};

use crate::OverlapKind;
use crate::bound::bind_broken;
use crate::imported::imported_in;
use crate::shared::shared_in;
use std::alloc::Global;
use tu_acts::{Act, ActForm, Texts};
use tu_base::Memory;
use tu_core::At;
use tu_core_expressions::Actual;
use tu_core_types::Program;
use tu_effects::{Effects, earlier};
use tu_reach::Search;

fn fault_of_call(
    alloc: Global,
    program: &Program,
    effects: &Effects,
    search: &mut Search,
    kind: OverlapKind,
    callee: u32,
    actuals: &[Actual],
) -> Result<Option<At>, Memory>
    requires effects { IsEffects program.now effects.now }
    requires search { length search.old ≡ effects.now.callers.texts }
    ensures length { length search.new ≡ length search.old }
    ensures found { IfOk result (λ least. IsLeast (CallHas program.now kind callee (actuals_view actuals.now)) least) }
{
    match kind {
        OverlapKind::SharedActual => shared_in(alloc, actuals),
        OverlapKind::ImportedActual => imported_in(program, effects, search, callee, actuals),
        OverlapKind::HiddenRoot => Ok(None),
        OverlapKind::ChangedBound => Ok(None),
    }
}

// Whether a kind of faults is of a `bind` of this form.
fn is_of_bind(kind: OverlapKind, is_var: bool) -> bool
    ensures { result ≡ is_of_bind_of kind is_var }
{
    match kind {
        OverlapKind::SharedActual => false,
        OverlapKind::ImportedActual => false,
        OverlapKind::HiddenRoot => is_var,
        OverlapKind::ChangedBound => !is_var,
    }
}

fn fault_of_act(
    alloc: Global,
    program: &Program,
    effects: &Effects,
    search: &mut Search,
    kind: OverlapKind,
    act: &Act,
    behind: &[Act],
) -> Result<Option<At>, Memory>
    requires effects { IsEffects program.now effects.now }
    requires search { length search.old ≡ effects.now.callers.texts }
    ensures length { length search.new ≡ length search.old }
    ensures found { IfOk result (λ least. IsLeast (HasFaultIn program.now kind (act.now, behind.now)) least) }
{
    match &act.form {
        ActForm::Calling {
            callee,
            actuals,
            ..
        } => fault_of_call(alloc, program, effects, search, kind, *callee, actuals),
        ActForm::Binding {
            is_var,
            place,
            extent,
            ..
        } => {
            if !is_of_bind(kind, *is_var) {
                return Ok(None);
            }
            let (scope, _) = behind.split_at((*extent).min(behind.len()));
            bind_broken(program, effects, search, *is_var, place, scope)
        }
        ActForm::Reading(_, _) => Ok(None),
        ActForm::Changing(_, _) => Ok(None),
        ActForm::Naming(_, _) => Ok(None),
        ActForm::Talking(_) => Ok(None),
        ActForm::Declaring(_, _) => Ok(None),
        ActForm::Defining(_, _) => Ok(None),
        ActForm::Fixing { .. } => Ok(None),
    }
}

fn fault_of_text(
    alloc: Global,
    program: &Program,
    effects: &Effects,
    search: &mut Search,
    kind: OverlapKind,
    acts: &[Act],
) -> Result<Option<At>, Memory>
    requires effects { IsEffects program.now effects.now }
    requires search { length search.old ≡ effects.now.callers.texts }
    ensures length { length search.new ≡ length search.old }
    ensures found { IfOk result (λ least. IsLeast (Among (HasFaultIn program.now kind) (tails acts.now)) least) }
{
    let mut least = None;
    for place in 0..acts.len() {
        let (act, behind) = (&acts[place], &acts[place + 1..]);
        let found = fault_of_act(alloc, program, effects, search, kind, act, behind)?;
        least = earlier(least, found);
    }
    Ok(least)
}

/// The first fault of a kind.
pub fn fault_of_kind(
    alloc: Global,
    program: &Program,
    texts: &Texts,
    effects: &Effects,
    search: &mut Search,
    kind: OverlapKind,
) -> Result<Option<At>, Memory>
    requires effects { IsEffects program.now effects.now }
    requires texts { AreTexts program.now texts.now }
    requires search { length search.old ≡ effects.now.callers.texts }
    ensures length { length search.new ≡ length search.old }
    ensures found { IfOk result (λ least. IsLeast (HasFault program.now kind) least) }
{
    let mut least = fault_of_text(alloc, program, effects, search, kind, texts.main.as_slice())?;
    for acts in texts.routines.as_slice() {
        let found = fault_of_text(alloc, program, effects, search, kind, acts.as_slice())?;
        least = earlier(least, found);
    }
    Ok(least)
}
