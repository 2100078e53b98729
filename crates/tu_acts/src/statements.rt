// The acts of statements with blocks.
ghost use Rattle.std.specs.Prelude.{◌≡◌, ◌∷◌, ◌++◌, ◌-◌, ◌≤◌, length, map, OnOk};
ghost use Rattle.tu_core.specs.Acts.{ACollection, AVariable, Fixing, arms_acts, block_acts, invariant_acts, otherwise_acts, range_acts, statement_acts};
ghost use Rattle.tu_core_types.specs.StatementViews.{arms_view, elsifs_view, last_view};
ghost use Rattle.tu_acts.specs.Rows.{part_acts};

use crate::ActForm;
use crate::act_list::ActList;
use crate::declarations::declaration;
use crate::expressions::{path, scalar};
use crate::plain::{plain, test};
use sqlite_items::Items;
use tu_base::{Line, Memory};
use tu_core::{At, Variable};
use tu_core_types::{Arm, Block, Elsif, Part, Range, RangeForm, Statement, StatementForm};

fn range<'a>(acts: &mut ActList<'a>, r: &'a Range) -> Result<(), Memory>
    ensures { OnOk result (acts.new ≡ range_acts r.now ++ acts.old) }
{
    match &r.form {
        RangeForm::FromTo { first, last } => {
            scalar(acts, last)?;
            scalar(acts, first)
        }
        RangeForm::Through(_) => Ok(()),
    }
}

// A call of a module's invariant.
fn invariant(acts: &mut ActList<'_>, at: At, number: Option<u32>, line: Line) -> Result<(), Memory>
    ensures { OnOk result (acts.new ≡ invariant_acts (record { start = at.start; line = line }) number ++ acts.old) }
{
    match number {
        None => Ok(()),
        Some(callee) => acts.add(ActForm::Calling {
            at: At {
                start: at.start,
                line,
            },
            callee,
            invariant: None,
            actuals: &[],
        }),
    }
}

/// Adds that these may not be changed in the acts up to where there were so many behind them.
pub fn fix<'a>(
    acts: &mut ActList<'a>,
    variables: &'a Items<Variable>,
    collections: &'a Items<u32>,
    behind: usize,
) -> Result<(), Memory>
    requires { behind ≤ length acts.old }
    ensures { OnOk result (acts.new ≡ Fixing (map AVariable variables.now ++ map ACollection collections.now) (length acts.old - behind) ∷ acts.old) }
{
    let extent = acts.len() - behind;
    acts.add(ActForm::Fixing {
        variables,
        collections,
        extent,
    })
}

/// Adds the acts of a statement.
#[cycle(statements)]
pub fn statement<'a>(acts: &mut ActList<'a>, s: &'a Statement) -> Result<(), Memory>
    ensures { OnOk result (acts.new ≡ statement_acts s.now ++ acts.old) }
{
    match &s.form {
        StatementForm::Simply(p) => plain(acts, s.at, p),
        StatementForm::If {
            condition,
            block: b,
            elsifs: xs,
            otherwise,
        } => {
            elsifs(acts, xs.as_slice(), otherwise)?;
            block(acts, b)?;
            scalar(acts, condition)
        }
        StatementForm::Loop {
            invariant: t,
            block: b,
        } => {
            block(acts, b)?;
            test(acts, t)
        }
        StatementForm::For {
            index,
            range: r,
            invariant: t,
            block: b,
            ..
        } => {
            block(acts, b)?;
            test(acts, t)?;
            range(acts, r)?;
            acts.add(ActForm::Declaring(s.at, Variable::Local(*index)))
        }
        StatementForm::Case {
            subject,
            arms: xs,
            otherwise,
        } => {
            arms(acts, xs.as_slice(), otherwise)?;
            scalar(acts, subject)
        }
        StatementForm::Begin(b) => block(acts, b),
        StatementForm::Module {
            fixed,
            fixed_collections,
            invariant: number,
            invariant_line,
            block: b,
        } => {
            invariant(acts, s.at, *number, *invariant_line)?;
            let behind = acts.len();
            block(acts, b)?;
            fix(acts, fixed, fixed_collections, behind)
        }
    }
}

#[cycle(statements)]
fn elsifs<'a>(acts: &mut ActList<'a>, xs: &'a [Elsif], last: &'a Block) -> Result<(), Memory>
    ensures { OnOk result (acts.new ≡ otherwise_acts (elsifs_view xs.now last.now) ++ acts.old) }
{
    block(acts, last)?;
    for place in (0..xs.len()).rev() {
        let x = &xs[place];
        block(acts, &x.block)?;
        scalar(acts, &x.condition)?;
    }
    Ok(())
}

#[cycle(statements)]
fn default<'a>(acts: &mut ActList<'a>, last: &'a Option<Block>) -> Result<(), Memory>
    ensures { OnOk result (acts.new ≡ arms_acts (last_view last.now) ++ acts.old) }
{
    match last {
        None => Ok(()),
        Some(b) => block(acts, b),
    }
}

#[cycle(statements)]
fn arms<'a>(acts: &mut ActList<'a>, xs: &'a [Arm], last: &'a Option<Block>) -> Result<(), Memory>
    ensures { OnOk result (acts.new ≡ arms_acts (arms_view xs.now last.now) ++ acts.old) }
{
    default(acts, last)?;
    for place in (0..xs.len()).rev() {
        block(acts, &xs[place].block)?;
    }
    Ok(())
}

/// Adds the acts of a block.
#[cycle(statements)]
pub fn block<'a>(acts: &mut ActList<'a>, b: &'a Block) -> Result<(), Memory>
    ensures { OnOk result (acts.new ≡ block_acts b.now ++ acts.old) }
{
    let behind = acts.len();
    let parts = b.parts.as_slice();
    for place in (0..parts.len()).rev() {
        part(acts, &parts[place], behind)?;
    }
    Ok(())
}

// A part of a block, where there were so many acts behind the block.
#[cycle(statements)]
fn part<'a>(acts: &mut ActList<'a>, x: &'a Part, behind: usize) -> Result<(), Memory>
    requires { behind ≤ length acts.old }
    ensures { OnOk result (acts.new ≡ part_acts x.now (length acts.old - behind) ++ acts.old) }
{
    match x {
        Part::Then(s) => statement(acts, s),
        Part::Declare(at, d) => declaration(acts, *at, d),
        Part::Bind {
            at,
            name,
            is_var,
            place,
        } => {
            let extent = acts.len() - behind;
            acts.add(ActForm::Binding {
                at: *at,
                name: *name,
                is_var: *is_var,
                place,
                extent,
            })?;
            path(acts, *is_var, place)
        }
    }
}
