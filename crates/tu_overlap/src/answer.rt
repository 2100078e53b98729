ghost use Rattle.std.specs.Prelude.{◌≡◌, ◌++◌, length, IfOk, MatchResult, OnOk};
ghost use Rattle.std.specs.List.{flat_map};
ghost use Rattle.tu_acts.specs.Texts.{AreTexts};
ghost use Rattle.tu_effects.specs.Relations.{IsEffects};
ghost use Rattle.tu_overlap.specs.Answers.{HasNoFault, IsCause, IsTold};
ghost use Rattle.tu_overlap.specs.Pairs.{tests_of, tests_of_act, tests_view};

use crate::fault::sooner;
use crate::texts::fault_of_kind;
use crate::{AliasError, Fault, OverlapKind, Pair, pairs};
use sqlite_items::Items;
use std::alloc::Global;
use tu_acts::{Act, ActForm, Texts};
use tu_base::Memory;
use tu_core_types::Program;
use tu_effects::Effects;

fn add_tests(alloc: Global, tests: &mut Items<Items<Pair>>, acts: &[Act]) -> Result<(), Memory>
    ensures { OnOk result (tests_view tests.new ≡ tests_view tests.old ++ flat_map tests_of_act acts.now) }
{
    for act in acts {
        add_tests_of(alloc, tests, act)?;
    }
    Ok(())
}

fn add_tests_of(alloc: Global, tests: &mut Items<Items<Pair>>, act: &Act) -> Result<(), Memory>
    ensures { OnOk result (tests_view tests.new ≡ tests_view tests.old ++ tests_of_act act.now) }
{
    if let ActForm::Calling { actuals, .. } = &act.form {
        tests.push(pairs(alloc, actuals)?)?;
    }
    Ok(())
}

// What is tested at each call, text by text.
fn tests(alloc: Global, program: &Program, texts: &Texts) -> Result<Items<Items<Pair>>, Memory>
    requires { AreTexts program.now texts.now }
    ensures { IfOk result (λ tests. tests_view tests ≡ tests_of program.now) }
{
    let mut tests = Items::new(alloc);
    add_tests(alloc, &mut tests, texts.main.as_slice())?;
    for acts in texts.routines.as_slice() {
        add_tests(alloc, &mut tests, acts.as_slice())?;
    }
    Ok(tests)
}

// The fault that no other goes before.
fn least_fault(
    alloc: Global,
    program: &Program,
    texts: &Texts,
    effects: &Effects,
) -> Result<Option<Fault>, Memory>
    requires effects { IsEffects program.now effects.now }
    requires texts { AreTexts program.now texts.now }
    ensures { IfOk result (λ least. IsTold program.now least) }
{
    let mut search = effects.search(alloc)?;
    let shared = fault_of_kind(
        alloc,
        program,
        texts,
        effects,
        &mut search,
        OverlapKind::SharedActual,
    )?;
    let shared = sooner(None, OverlapKind::SharedActual, shared);
    let imported = fault_of_kind(
        alloc,
        program,
        texts,
        effects,
        &mut search,
        OverlapKind::ImportedActual,
    )?;
    let imported = sooner(shared, OverlapKind::ImportedActual, imported);
    let hidden = fault_of_kind(
        alloc,
        program,
        texts,
        effects,
        &mut search,
        OverlapKind::HiddenRoot,
    )?;
    let hidden = sooner(imported, OverlapKind::HiddenRoot, hidden);
    let changed = fault_of_kind(
        alloc,
        program,
        texts,
        effects,
        &mut search,
        OverlapKind::ChangedBound,
    )?;
    Ok(sooner(hidden, OverlapKind::ChangedBound, changed))
}

/// What is tested at each call of a program, exactly where it has no fault of overlap, and else its
/// least one.
pub fn overlaps(
    alloc: Global,
    program: &Program,
    effects: &Effects,
) -> Result<Items<Items<Pair>>, AliasError>
    requires { IsEffects program.now effects.now }
    ensures { MatchResult result (λ tests. HasNoFault program.now × (tests_view tests ≡ tests_of program.now)) (λ error. IsCause program.now error) }
{
    let texts = Texts::of(alloc, program)?;
    match least_fault(alloc, program, &texts, effects)? {
        Some(fault) => Err(fault.error()),
        None => Ok(tests(alloc, program, &texts)?),
    }
}
