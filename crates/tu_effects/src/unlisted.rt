// Changes of what an import list lets be read alone.
ghost use Rattle.std.specs.Prelude.{◌≡◌, ◌++◌, map};
ghost use Rattle.std.specs.List.{list_any};
ghost use Rattle.tu_core.specs.Acts.{ACollection, AVariable};
ghost use Rattle.tu_core.specs.Effects.{Among, ChangesFixed, UnlistedIn, UnlistedWrite, is_one as is_one_of, tails};
ghost use Rattle.tu_acts.specs.ActViews.{subject_view};
ghost use Rattle.tu_acts.specs.Texts.{AreTexts};
ghost use Rattle.tu_effects.specs.Least.{IsLeast};

use crate::{at_if, earlier, is_one};
use tu_acts::{Act, ActForm, Subject, Texts};
use tu_core::{At, Variable};
use tu_core_types::Program;

fn is_variable_among(variables: &[Variable], x: Subject) -> bool
    ensures { result ≡ list_any (is_one_of (subject_view x)) (map AVariable variables.now) }
{
    for y in variables {
        if is_one(x, Subject::AVariable(*y)) {
            return true;
        }
    }
    false
}

fn is_collection_among(collections: &[u32], x: Subject) -> bool
    ensures { result ≡ list_any (is_one_of (subject_view x)) (map ACollection collections.now) }
{
    for c in collections {
        if is_one(x, Subject::ACollection(*c)) {
            return true;
        }
    }
    false
}

fn is_among(variables: &[Variable], collections: &[u32], x: Subject) -> bool
    ensures { result ≡ list_any (is_one_of (subject_view x)) (map AVariable variables.now ++ map ACollection collections.now) }
{
    is_variable_among(variables, x) || is_collection_among(collections, x)
}

fn changes_fixed(variables: &[Variable], collections: &[u32], act: &Act) -> Option<At>
    ensures { IsLeast (ChangesFixed (map AVariable variables.now ++ map ACollection collections.now) act.now) result }
{
    match &act.form {
        ActForm::Changing(at, x) => { at_if(is_among(variables, collections, *x), *at) }
        ActForm::Reading(_, _) => None,
        ActForm::Naming(_, _) => None,
        ActForm::Talking(_) => None,
        ActForm::Calling { .. } => None,
        ActForm::Binding { .. } => None,
        ActForm::Declaring(_, _) => None,
        ActForm::Defining(_, _) => None,
        ActForm::Fixing { .. } => None,
    }
}

fn scope_changes_fixed(variables: &[Variable], collections: &[u32], acts: &[Act]) -> Option<At>
    ensures { IsLeast (Among (ChangesFixed (map AVariable variables.now ++ map ACollection collections.now)) acts.now) result }
{
    let mut least = None;
    for act in acts {
        least = earlier(least, changes_fixed(variables, collections, act));
    }
    least
}

fn unlisted_in(act: &Act, behind: &[Act]) -> Option<At>
    ensures { IsLeast (UnlistedIn (act.now, behind.now)) result }
{
    match &act.form {
        ActForm::Fixing {
            variables,
            collections,
            extent,
        } => {
            let (scope, _) = behind.split_at((*extent).min(behind.len()));
            scope_changes_fixed(variables.as_slice(), collections.as_slice(), scope)
        }
        ActForm::Reading(_, _) => None,
        ActForm::Changing(_, _) => None,
        ActForm::Naming(_, _) => None,
        ActForm::Talking(_) => None,
        ActForm::Calling { .. } => None,
        ActForm::Binding { .. } => None,
        ActForm::Declaring(_, _) => None,
        ActForm::Defining(_, _) => None,
    }
}

fn unlisted_in_text(acts: &[Act]) -> Option<At>
    ensures { IsLeast (Among UnlistedIn (tails acts.now)) result }
{
    let mut least = None;
    for place in 0..acts.len() {
        least = earlier(least, unlisted_in(&acts[place], &acts[place + 1..]));
    }
    least
}

/// The first change of a name that an import list lets be read alone.
pub fn unlisted_write(program: &Program, texts: &Texts) -> Option<At>
    requires { AreTexts program.now texts.now }
    ensures { IsLeast (UnlistedWrite program.now) result }
{
    let mut least = unlisted_in_text(texts.main.as_slice());
    for acts in texts.routines.as_slice() {
        least = earlier(least, unlisted_in_text(acts.as_slice()));
    }
    least
}
