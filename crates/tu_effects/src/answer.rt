ghost use Rattle.std.specs.Prelude.{◌≡◌, MatchResult};
ghost use Rattle.tu_acts.specs.Texts.{AreTexts};
ghost use Rattle.tu_effects.specs.Answers.{HasNoFault, IsCause, IsTold};
ghost use Rattle.tu_effects.specs.Relations.{IsEffects};

use crate::fault::sooner;
use crate::formals::function_var;
use crate::outside::{Deed, function_does};
use crate::unlisted::unlisted_write;
use crate::{EffectError, EffectKind, Effects, Fault};
use std::alloc::Global;
use tu_acts::Texts;
use tu_core_types::Program;

// The fault that no other goes before.
fn least_fault(program: &Program, texts: &Texts, effects: &Effects) -> Option<Fault>
    requires effects { IsEffects program.now effects.now }
    requires texts { AreTexts program.now texts.now }
    ensures { IsTold program.now result }
{
    let var = sooner(None, EffectKind::FunctionVar, function_var(program));
    let writes = function_does(program, texts, effects, Deed::Writes);
    let writes = sooner(var, EffectKind::FunctionWrites, writes);
    let talks = function_does(program, texts, effects, Deed::Talks);
    let talks = sooner(writes, EffectKind::FunctionTalks, talks);
    let unlisted = unlisted_write(program, texts);
    sooner(talks, EffectKind::UnlistedWrite, unlisted)
}

/// The effects of a program, exactly where it has no fault of effects, and else its least one.
pub fn effects(alloc: Global, program: &Program) -> Result<Effects, EffectError>
    ensures { MatchResult result (λ effects. HasNoFault program.now × IsEffects program.now effects) (λ error. IsCause program.now error) }
{
    let texts = Texts::of(alloc, program)?;
    let relations = Effects::of(alloc, &texts)?;
    match least_fault(program, &texts, &relations) {
        Some(fault) => Err(fault.error()),
        None => Ok(relations),
    }
}
