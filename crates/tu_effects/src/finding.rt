// What the texts of a program say of its effects, and how they are asked.
ghost use Rattle.std.specs.Prelude.{◌≡◌, [], length, IfOk, OnOk};
ghost use Rattle.tu_acts.specs.ActViews.{subject_view};
ghost use Rattle.tu_acts.specs.Texts.{AreTexts};
ghost use Rattle.tu_core.specs.Core.{Program};
ghost use Rattle.tu_effects.specs.Relations.{AreCallersIn, FindsChanging, FindsTouching, HasAddedAll, IsEffects, LeadsToAnswer};

use crate::index::add_texts;
use crate::{Effects, Question};
use sqlite_items::Items;
use std::alloc::Global;
use tu_acts::{Act, Subject, Texts};
use tu_base::Memory;
use tu_core::Variable;
use tu_reach::{Rows, Search};

fn answers(alloc: Global, texts: &[Items<Act>], question: Question) -> Result<Rows, Memory>
    ensures texts { IfOk result (λ rows. rows.texts ≡ length texts.now) }
    ensures added { IfOk result (λ rows. HasAddedAll [] rows.rows question texts.now) }
{
    let mut rows = Rows::new(alloc, texts.len());
    add_texts(alloc, &mut rows, texts, question)?;
    Ok(rows)
}

fn callers_in(alloc: Global, texts: &[Items<Act>]) -> Result<Rows, Memory>
    ensures texts { IfOk result (λ rows. rows.texts ≡ length texts.now) }
    ensures added { IfOk result (λ rows. AreCallersIn texts.now rows.rows) }
{
    let mut rows = answers(alloc, texts, Question::Calls)?;
    add_texts(alloc, &mut rows, texts, Question::CallsInvariant)?;
    Ok(rows)
}

// The texts that lead by calls to one whose answer is 0.
fn leading(
    alloc: Global,
    callers: &Rows,
    texts: &[Items<Act>],
    question: Question,
) -> Result<Search, Memory>
    requires { callers.now.texts ≡ length texts.now }
    ensures { IfOk result (λ found. LeadsToAnswer callers.now.rows texts.now question found) }
{
    let rows = answers(alloc, texts, question)?;
    let mut search = Search::new(alloc, texts.len())?;
    search.find(callers, rows.row(0))?;
    Ok(search)
}

impl Effects {
    /// Those of a program with these texts.
    pub fn of(alloc: Global, texts: &Texts) -> Result<Self, Memory>
        ensures { IfOk result (λ effects. (program : Program) → AreTexts program texts.now → IsEffects program effects) }
    {
        let texts = texts.routines.as_slice();
        let callers = callers_in(alloc, texts)?;
        let touched_variables = answers(alloc, texts, Question::TouchesVariable)?;
        let touched_collections = answers(alloc, texts, Question::TouchesCollection)?;
        let changed_variables = answers(alloc, texts, Question::ChangesVariable)?;
        let changed_collections = answers(alloc, texts, Question::ChangesCollection)?;
        let writes = leading(alloc, &callers, texts, Question::ChangesOuter)?;
        let talks = leading(alloc, &callers, texts, Question::Talks)?;
        Ok(Effects {
            callers,
            touched_variables,
            touched_collections,
            changed_variables,
            changed_collections,
            writes,
            talks,
        })
    }

    /// A search among the routines.
    pub fn search(&self, alloc: Global) -> Result<Search, Memory>
        ensures { IfOk result (λ search. length search ≡ self.now.callers.texts) }
    {
        Search::new(alloc, self.callers.texts())
    }

    /// Finds the routines that read or change a subject, by themselves or by calls.
    pub fn find_touching(&self, search: &mut Search, x: Subject) -> Result<(), Memory>
        requires { length search.old ≡ self.now.callers.texts }
        ensures length { length search.new ≡ length search.old }
        ensures found { OnOk result (FindsTouching self.now (subject_view x) search.new) }
    {
        match x {
            Subject::AVariable(x) => match x {
                Variable::Global(x) => {
                    search.find(&self.callers, self.touched_variables.row(x as usize))
                }
                Variable::Local(_) => search.find(&self.callers, &[]),
            },
            Subject::ACollection(c) => {
                search.find(&self.callers, self.touched_collections.row(c as usize))
            }
        }
    }

    /// Finds the routines that change a subject, by themselves or by calls.
    pub fn find_changing(&self, search: &mut Search, x: Subject) -> Result<(), Memory>
        requires { length search.old ≡ self.now.callers.texts }
        ensures length { length search.new ≡ length search.old }
        ensures found { OnOk result (FindsChanging self.now (subject_view x) search.new) }
    {
        match x {
            Subject::AVariable(x) => match x {
                Variable::Global(x) => {
                    search.find(&self.callers, self.changed_variables.row(x as usize))
                }
                Variable::Local(_) => search.find(&self.callers, &[]),
            },
            Subject::ACollection(c) => {
                search.find(&self.callers, self.changed_collections.row(c as usize))
            }
        }
    }
}
