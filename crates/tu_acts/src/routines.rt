// The acts of whole texts.
ghost use Rattle.std.specs.Prelude.{◌≡◌, ◌++◌, IfOk, OnOk};
ghost use Rattle.tu_core.specs.Acts.{handler_acts, main_acts as main_acts_of, routine_acts as routine_acts_of};
ghost use Rattle.tu_core_types.specs.ProgramViews.{handler_view};
ghost use Rattle.tu_acts.specs.Texts.{AreTexts};

use crate::act_list::ActList;
use crate::statements::{block, fix};
use crate::{Act, ActForm};
use sqlite_items::Items;
use std::alloc::Global;
use tu_base::Memory;
use tu_core::Variable;
use tu_core_types::{Handler, Program, Routine};

fn handler<'a>(acts: &mut ActList<'a>, h: &'a Option<Handler>) -> Result<(), Memory>
    ensures { OnOk result (acts.new ≡ handler_acts (handler_view h.now) ++ acts.old) }
{
    match h {
        None => Ok(()),
        Some(h) => {
            block(acts, &h.block)?;
            acts.add(ActForm::Declaring(h.at, Variable::Local(h.name)))
        }
    }
}

/// The acts of a subprogram, its contract and its handler, or of an invariant.
pub fn routine_acts<'a>(alloc: Global, r: &'a Routine) -> Result<Items<Act<'a>>, Memory>
    ensures { IfOk result (λ acts. acts ≡ routine_acts_of r.now) }
{
    let mut acts = ActList::new(alloc);
    block(&mut acts, &r.body)?;
    handler(&mut acts, &r.handler)?;
    block(&mut acts, &r.after)?;
    block(&mut acts, &r.before)?;
    fix(&mut acts, &r.fixed, &r.fixed_collections, 0)?;
    Ok(acts.into_items())
}

/// The acts of the program's own text.
pub fn main_acts<'a>(alloc: Global, program: &'a Program) -> Result<Items<Act<'a>>, Memory>
    ensures { IfOk result (λ acts. acts ≡ main_acts_of program.now) }
{
    let mut acts = ActList::new(alloc);
    block(&mut acts, &program.main)?;
    Ok(acts.into_items())
}

/// The acts of the program's own text and of each of its routines.
#[derive(Drop)]
pub struct Texts<'a> {
    pub main: Items<Act<'a>>,
    pub routines: Items<Items<Act<'a>>>,
}

impl<'a> Texts<'a> {
    pub fn of(alloc: Global, program: &'a Program) -> Result<Self, Memory>
        ensures { IfOk result (λ texts. AreTexts program.now texts) }
    {
        let main = main_acts(alloc, program)?;
        let mut routines = Items::new(alloc);
        for r in program.routines.as_slice() {
            routines.push(routine_acts(alloc, r)?)?;
        }
        Ok(Texts { main, routines })
    }
}
