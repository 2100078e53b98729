// The joins of statements, with the locals that they change.
ghost use Rattle.std.specs.Prelude.{◌≡◌, ◌+◌, ◌++◌, IfOk, OnOk};
ghost use Rattle.tu_core.specs.Measures.{of_test, of_statement, of_block, of_otherwise, of_arms};
ghost use Rattle.tu_core.specs.Rooms.{all_joins, own_joins as own_joins_of};
ghost use Rattle.tu_core_types.specs.StatementViews.{elsifs_view, last_view, arms_view};
ghost use Rattle.tu_room_parts.specs.Capped.{capped};
ghost use Rattle.tu_room_counts.specs.StatementRows.{one_elsif, one_part};
ghost use Rattle.tu_room_changes.specs.Changed.{changed};
ghost use Rattle.tu_room_joins.specs.Flags.{scalars_in};
ghost use Rattle.tu_room_joins.specs.Inner.{inner_of};

use crate::Scalars;
use std::alloc::Global;
use tu_base::{Memory, Numbers};
use tu_core_types::{Arm, Block, Elsif, Part, Statement, StatementForm, Test};
use tu_room_changes::{declaration, note_var_root, path, plain, range, scalar, test};
use tu_room_parts::plus;

/// The joins of a statement by itself, which changes these locals.
fn own_joins(s: &Statement, scalars: &mut Scalars, list: &[u64]) -> u64
    requires { list.now ≡ of_statement changed s.now }
    ensures joins { result ≡ capped (own_joins_of (scalars_in scalars.old) s.now) }
    ensures same { scalars.new ≡ scalars.old }
{
    match &s.form {
        StatementForm::Simply(_) => 0,
        StatementForm::If { .. } => scalars.count_in(list),
        StatementForm::Loop { .. } => scalars.count_in(list),
        StatementForm::For { .. } => scalars.count_in(list),
        StatementForm::Case { .. } => scalars.count_in(list),
        StatementForm::Begin(_) => scalars.count_in(list),
        StatementForm::Module { .. } => 0,
    }
}

/// The joins of a statement with those in it, while the locals that it changes are noted.
#[cycle(statements)]
fn statement(s: &Statement, scalars: &mut Scalars, found: &mut Numbers) -> Result<u64, Memory>
    ensures joins { IfOk result (λ n. n ≡ capped (of_statement (all_joins (scalars_in scalars.old)) s.now)) }
    ensures changes { OnOk result (found.new ≡ found.old ++ of_statement changed s.now) }
    ensures same { OnOk result (scalars.new ≡ scalars.old) }
{
    let start = found.len();
    let joins = inner(s, scalars, found)?;
    let own = own_joins(s, scalars, &found.as_slice()[start..]);
    Ok(plus(own, joins))
}

#[cycle(statements)]
fn inner(s: &Statement, scalars: &mut Scalars, found: &mut Numbers) -> Result<u64, Memory>
    ensures joins { IfOk result (λ n. n ≡ capped (inner_of (all_joins (scalars_in scalars.old)) s.now)) }
    ensures changes { OnOk result (found.new ≡ found.old ++ inner_of changed s.now) }
    ensures same { OnOk result (scalars.new ≡ scalars.old) }
{
    match &s.form {
        StatementForm::Simply(s) => {
            plain(s, found)?;
            Ok(0)
        }
        StatementForm::If {
            condition,
            block: b,
            elsifs: xs,
            otherwise,
        } => {
            scalar(condition, found)?;
            choice(b, xs.as_slice(), otherwise, scalars, found)
        }
        StatementForm::Loop {
            invariant,
            block: b,
        } => repeated(invariant, b, scalars, found),
        StatementForm::For {
            range: r,
            invariant,
            block: b,
            ..
        } => {
            range(r, found)?;
            repeated(invariant, b, scalars, found)
        }
        StatementForm::Case {
            subject,
            arms: xs,
            otherwise,
        } => {
            scalar(subject, found)?;
            arms(xs.as_slice(), otherwise, scalars, found)
        }
        StatementForm::Begin(b) => block(b, scalars, found),
        StatementForm::Module { block: b, .. } => block(b, scalars, found),
    }
}

/// The arms of an `if`.
#[cycle(statements)]
fn choice(
    b: &Block,
    xs: &[Elsif],
    last: &Block,
    scalars: &mut Scalars,
    found: &mut Numbers,
) -> Result<u64, Memory>
    ensures joins { IfOk result (λ n. n ≡ capped (of_block (all_joins (scalars_in scalars.old)) b.now + of_otherwise (all_joins (scalars_in scalars.old)) (elsifs_view xs.now last.now))) }
    ensures changes { OnOk result (found.new ≡ found.old ++ (of_block changed b.now ++ of_otherwise changed (elsifs_view xs.now last.now))) }
    ensures same { OnOk result (scalars.new ≡ scalars.old) }
{
    let first = block(b, scalars, found)?;
    let more = elsifs(xs, last, scalars, found)?;
    Ok(plus(first, more))
}

/// The block of a loop, with its invariant.
#[cycle(statements)]
fn repeated(
    invariant: &Option<Test>,
    b: &Block,
    scalars: &mut Scalars,
    found: &mut Numbers,
) -> Result<u64, Memory>
    ensures joins { IfOk result (λ n. n ≡ capped (of_test (all_joins (scalars_in scalars.old)) invariant.now + of_block (all_joins (scalars_in scalars.old)) b.now)) }
    ensures changes { OnOk result (found.new ≡ found.old ++ (of_test changed invariant.now ++ of_block changed b.now)) }
    ensures same { OnOk result (scalars.new ≡ scalars.old) }
{
    test(invariant, found)?;
    block(b, scalars, found)
}

#[cycle(statements)]
fn elsif(x: &Elsif, scalars: &mut Scalars, found: &mut Numbers) -> Result<u64, Memory>
    ensures joins { IfOk result (λ n. n ≡ capped (of_block (all_joins (scalars_in scalars.old)) x.now.block)) }
    ensures changes { OnOk result (found.new ≡ found.old ++ one_elsif changed x.now) }
    ensures same { OnOk result (scalars.new ≡ scalars.old) }
{
    scalar(&x.condition, found)?;
    block(&x.block, scalars, found)
}

#[cycle(statements)]
fn elsifs(
    xs: &[Elsif],
    last: &Block,
    scalars: &mut Scalars,
    found: &mut Numbers,
) -> Result<u64, Memory>
    ensures joins { IfOk result (λ n. n ≡ capped (of_otherwise (all_joins (scalars_in scalars.old)) (elsifs_view xs.now last.now))) }
    ensures changes { OnOk result (found.new ≡ found.old ++ of_otherwise changed (elsifs_view xs.now last.now)) }
    ensures same { OnOk result (scalars.new ≡ scalars.old) }
{
    let mut sum = 0;
    for x in xs {
        sum = plus(sum, elsif(x, scalars, found)?);
    }
    Ok(plus(sum, block(last, scalars, found)?))
}

#[cycle(statements)]
fn default(last: &Option<Block>, scalars: &mut Scalars, found: &mut Numbers) -> Result<u64, Memory>
    ensures joins { IfOk result (λ n. n ≡ capped (of_arms (all_joins (scalars_in scalars.old)) (last_view last.now))) }
    ensures changes { OnOk result (found.new ≡ found.old ++ of_arms changed (last_view last.now)) }
    ensures same { OnOk result (scalars.new ≡ scalars.old) }
{
    match last {
        None => Ok(0),
        Some(b) => block(b, scalars, found),
    }
}

#[cycle(statements)]
fn arms(
    xs: &[Arm],
    last: &Option<Block>,
    scalars: &mut Scalars,
    found: &mut Numbers,
) -> Result<u64, Memory>
    ensures joins { IfOk result (λ n. n ≡ capped (of_arms (all_joins (scalars_in scalars.old)) (arms_view xs.now last.now))) }
    ensures changes { OnOk result (found.new ≡ found.old ++ of_arms changed (arms_view xs.now last.now)) }
    ensures same { OnOk result (scalars.new ≡ scalars.old) }
{
    let mut sum = 0;
    for x in xs {
        sum = plus(sum, block(&x.block, scalars, found)?);
    }
    Ok(plus(sum, default(last, scalars, found)?))
}

#[cycle(statements)]
fn block(b: &Block, scalars: &mut Scalars, found: &mut Numbers) -> Result<u64, Memory>
    ensures joins { IfOk result (λ n. n ≡ capped (of_block (all_joins (scalars_in scalars.old)) b.now)) }
    ensures changes { OnOk result (found.new ≡ found.old ++ of_block changed b.now) }
    ensures same { OnOk result (scalars.new ≡ scalars.old) }
{
    let mut sum = 0;
    for x in b.parts.as_slice() {
        sum = plus(sum, part(x, scalars, found)?);
    }
    Ok(sum)
}

#[cycle(statements)]
fn part(x: &Part, scalars: &mut Scalars, found: &mut Numbers) -> Result<u64, Memory>
    ensures joins { IfOk result (λ n. n ≡ capped (one_part (all_joins (scalars_in scalars.old)) x.now)) }
    ensures changes { OnOk result (found.new ≡ found.old ++ one_part changed x.now) }
    ensures same { OnOk result (scalars.new ≡ scalars.old) }
{
    match x {
        Part::Then(s) => statement(s, scalars, found),
        Part::Declare(_, d) => {
            declaration(d, found)?;
            Ok(0)
        }
        Part::Bind { is_var, place, .. } => {
            note_var_root(*is_var, place, found)?;
            path(place, found)?;
            Ok(0)
        }
    }
}

/// The joins of a text, where it has these scalar locals.
pub fn joins(alloc: Global, scalars: &mut Scalars, b: &Block) -> Result<u64, Memory>
    ensures joins { IfOk result (λ n. n ≡ capped (of_block (all_joins (scalars_in scalars.old)) b.now)) }
    ensures same { OnOk result (scalars.new ≡ scalars.old) }
{
    let mut found = Numbers::make(alloc);
    block(b, scalars, &mut found)
}
