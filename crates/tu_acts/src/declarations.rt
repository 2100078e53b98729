// The acts of declarations.
ghost use Rattle.std.specs.Prelude.{◌≡◌, ◌++◌, map, OnOk};
ghost use Rattle.tu_core.specs.Acts.{Declaring, constant_acts, constants_acts, declaration_acts, start_acts, starts_acts};
ghost use Rattle.tu_core_types.specs.StatementViews.{starts_view};

use crate::act_list::ActList;
use crate::expressions::{path, scalars, simple};
use crate::{ActForm, Subject};
use tu_base::Memory;
use tu_core::{At, Variable};
use tu_core_types::{Declaration, DeclarationForm, Named, Start, StartForm};

/// Adds the acts of a start.
#[cycle(starts)]
fn start<'a>(acts: &mut ActList<'a>, s: &'a Start) -> Result<(), Memory>
    ensures { OnOk result (acts.new ≡ start_acts s.now ++ acts.old) }
{
    match &s.form {
        StartForm::WithValue(_, e) => simple(acts, e),
        StartForm::WithCopy { place, .. } => path(acts, false, place),
        StartForm::WithParts { parts, .. } => starts(acts, parts.as_slice()),
    }
}

#[cycle(starts)]
fn starts<'a>(acts: &mut ActList<'a>, xs: &'a [Start]) -> Result<(), Memory>
    ensures { OnOk result (acts.new ≡ starts_acts (starts_view xs.now) ++ acts.old) }
{
    for place in (0..xs.len()).rev() {
        start(acts, &xs[place])?;
    }
    Ok(())
}

fn constant<'a>(acts: &mut ActList<'a>, at: At, x: &'a Named) -> Result<(), Memory>
    ensures { OnOk result (acts.new ≡ constant_acts at x.now ++ acts.old) }
{
    acts.add(ActForm::Defining(at, x))?;
    start(acts, &x.start)
}

fn constants<'a>(acts: &mut ActList<'a>, at: At, xs: &'a [Named]) -> Result<(), Memory>
    ensures { OnOk result (acts.new ≡ constants_acts at xs.now ++ acts.old) }
{
    for place in (0..xs.len()).rev() {
        constant(acts, at, &xs[place])?;
    }
    Ok(())
}

fn variables(acts: &mut ActList<'_>, at: At, xs: &[Variable]) -> Result<(), Memory>
    ensures { OnOk result (acts.new ≡ map (Declaring at) xs.now ++ acts.old) }
{
    for place in (0..xs.len()).rev() {
        acts.add(ActForm::Declaring(at, xs[place]))?;
    }
    Ok(())
}

/// Adds the acts of a declaration.
pub fn declaration<'a>(acts: &mut ActList<'a>, at: At, d: &'a Declaration) -> Result<(), Memory>
    ensures { OnOk result (acts.new ≡ declaration_acts at d.now ++ acts.old) }
{
    match &d.form {
        DeclarationForm::Constant(x) => constant(acts, at, x),
        DeclarationForm::InitClause(xs) => constants(acts, at, xs.as_slice()),
        DeclarationForm::Variables { names, .. } => variables(acts, at, names.as_slice()),
        DeclarationForm::Started {
            names,
            start: s,
            ..
        } => {
            start(acts, s)?;
            variables(acts, at, names.as_slice())
        }
        DeclarationForm::Arrays { names, bounds, .. } => {
            scalars(acts, bounds.as_slice())?;
            variables(acts, at, names.as_slice())
        }
        DeclarationForm::Collections(_) => Ok(()),
        DeclarationForm::Mention { collection } => {
            acts.add(ActForm::Naming(at, Subject::ACollection(*collection)))
        }
    }
}
