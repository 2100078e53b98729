ghost use Rattle.std.specs.Prelude.{◌≡◌};
ghost use Rattle.std.specs.Option.{option_map};
ghost use Rattle.tu_acts.specs.ActViews.{subject_view};
ghost use Rattle.tu_core.specs.Effects.{talks as talks_of};
ghost use Rattle.tu_effects.specs.Questions.{callee_of as callee_in, changed as changed_by, collection_number as collection_number_of, invariant_of as invariant_in, number as number_of, outer_number as outer_number_of, touched as touched_by, variable_number as variable_number_of};

use tu_acts::{Act, ActForm, Subject};
use tu_core::Variable;

/// What is asked of the acts of a text. Each answer is a number.
#[derive(Clone, Copy, PartialEq, Eq)]
pub enum Question {
    /// Which routine an act calls.
    Calls,
    /// Which invariant an act calls besides.
    CallsInvariant,
    /// Which variable of the program or of a module it reads or changes.
    TouchesVariable,
    TouchesCollection,
    ChangesVariable,
    ChangesCollection,
    /// Whether it changes any of these: the answer is 0.
    ChangesOuter,
    /// Whether it is of input or output: the answer is 0.
    Talks,
}

/// What an act changes. A declaration changes what it declares.
pub fn changed(act: &Act) -> Option<Subject>
    ensures { option_map subject_view result ≡ changed_by act.now }
{
    match &act.form {
        ActForm::Changing(_, x) => Some(*x),
        ActForm::Declaring(_, x) => Some(Subject::AVariable(*x)),
        ActForm::Defining(_, x) => Some(Subject::AVariable(x.name)),
        ActForm::Reading(_, _) => None,
        ActForm::Naming(_, _) => None,
        ActForm::Talking(_) => None,
        ActForm::Calling { .. } => None,
        ActForm::Binding { .. } => None,
        ActForm::Fixing { .. } => None,
    }
}

/// What an act reads or changes.
pub fn touched(act: &Act) -> Option<Subject>
    ensures { option_map subject_view result ≡ touched_by act.now }
{
    match &act.form {
        ActForm::Reading(_, x) => Some(*x),
        ActForm::Changing(_, _) => changed(act),
        ActForm::Naming(_, _) => None,
        ActForm::Talking(_) => None,
        ActForm::Calling { .. } => None,
        ActForm::Binding { .. } => None,
        ActForm::Declaring(_, _) => changed(act),
        ActForm::Defining(_, _) => changed(act),
        ActForm::Fixing { .. } => None,
    }
}

fn callee_of(act: &Act) -> Option<u32>
    ensures { result ≡ callee_in act.now }
{
    match &act.form {
        ActForm::Calling { callee, .. } => Some(*callee),
        ActForm::Reading(_, _) => None,
        ActForm::Changing(_, _) => None,
        ActForm::Naming(_, _) => None,
        ActForm::Talking(_) => None,
        ActForm::Binding { .. } => None,
        ActForm::Declaring(_, _) => None,
        ActForm::Defining(_, _) => None,
        ActForm::Fixing { .. } => None,
    }
}

fn invariant_of(act: &Act) -> Option<u32>
    ensures { result ≡ invariant_in act.now }
{
    match &act.form {
        ActForm::Calling { invariant, .. } => *invariant,
        ActForm::Reading(_, _) => None,
        ActForm::Changing(_, _) => None,
        ActForm::Naming(_, _) => None,
        ActForm::Talking(_) => None,
        ActForm::Binding { .. } => None,
        ActForm::Declaring(_, _) => None,
        ActForm::Defining(_, _) => None,
        ActForm::Fixing { .. } => None,
    }
}

fn talks(act: &Act) -> bool
    ensures { result ≡ talks_of act.now }
{
    match &act.form {
        ActForm::Talking(_) => true,
        ActForm::Reading(_, _) => false,
        ActForm::Changing(_, _) => false,
        ActForm::Naming(_, _) => false,
        ActForm::Calling { .. } => false,
        ActForm::Binding { .. } => false,
        ActForm::Declaring(_, _) => false,
        ActForm::Defining(_, _) => false,
        ActForm::Fixing { .. } => false,
    }
}

fn variable_number(x: Option<Subject>) -> Option<u32>
    ensures { result ≡ variable_number_of (option_map subject_view x) }
{
    match x {
        None => None,
        Some(Subject::AVariable(Variable::Global(x))) => Some(x),
        Some(Subject::AVariable(Variable::Local(_))) => None,
        Some(Subject::ACollection(_)) => None,
    }
}

fn collection_number(x: Option<Subject>) -> Option<u32>
    ensures { result ≡ collection_number_of (option_map subject_view x) }
{
    match x {
        None => None,
        Some(Subject::AVariable(_)) => None,
        Some(Subject::ACollection(c)) => Some(c),
    }
}

fn outer_number(x: Option<Subject>) -> Option<u32>
    ensures { result ≡ outer_number_of (option_map subject_view x) }
{
    match x {
        None => None,
        Some(Subject::AVariable(Variable::Global(_))) => Some(0),
        Some(Subject::AVariable(Variable::Local(_))) => None,
        Some(Subject::ACollection(_)) => Some(0),
    }
}

impl Question {
    /// The answer of an act.
    pub fn number(self, act: &Act) -> Option<u32>
        ensures { result ≡ number_of self act.now }
    {
        match self {
            Question::Calls => callee_of(act),
            Question::CallsInvariant => invariant_of(act),
            Question::TouchesVariable => variable_number(touched(act)),
            Question::TouchesCollection => collection_number(touched(act)),
            Question::ChangesVariable => variable_number(changed(act)),
            Question::ChangesCollection => collection_number(changed(act)),
            Question::ChangesOuter => outer_number(changed(act)),
            Question::Talks => if talks(act) { Some(0) } else { None },
        }
    }
}
