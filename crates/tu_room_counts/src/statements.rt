// What statements with blocks add to a sum.
ghost use Rattle.std.specs.Prelude.{◌≡◌};
ghost use Rattle.tu_core.specs.Measures.{of_range, of_statement, of_block, of_otherwise, of_arms};
ghost use Rattle.tu_core.specs.Nodes.{nodes as nodes_of, statement_nodes as statement_nodes_of};
ghost use Rattle.tu_core_types.specs.StatementViews.{elsifs_view, last_view, arms_view};
ghost use Rattle.tu_room_parts.specs.Capped.{capped};
ghost use Rattle.tu_room_parts.specs.Counts.{counting};
ghost use Rattle.tu_room_counts.specs.StatementRows.{one_part};

use crate::declarations::declaration;
use crate::plain::{plain, test};
use tu_core_types::{Arm, Block, Elsif, Part, Range, RangeForm, Statement, StatementForm};
use tu_room_parts::{Count, path, plus, scalar, where_nodes};

fn range(count: &Count, r: &Range) -> u64
    ensures { result ≡ of_range (counting count.now) r.now }
{
    match &r.form {
        RangeForm::FromTo { first, last } => plus(scalar(count, first), scalar(count, last)),
        RangeForm::Through(_) => 0,
    }
}

fn statement_nodes(s: &Statement) -> u64
    ensures { result ≡ statement_nodes_of s.now }
{
    match &s.form {
        StatementForm::Simply(_) => 0,
        StatementForm::If { .. } => 1,
        StatementForm::Loop { .. } => 1,
        StatementForm::For { .. } => 1,
        StatementForm::Case { .. } => 1,
        StatementForm::Begin(_) => 1,
        StatementForm::Module { .. } => 0,
    }
}

#[cycle(statements)]
fn statement(count: &Count, s: &Statement) -> u64
    ensures { result ≡ of_statement (counting count.now) s.now }
{
    let own = where_nodes(count, statement_nodes(s));
    match &s.form {
        StatementForm::Simply(s) => plus(own, plain(count, s)),
        StatementForm::If {
            condition,
            block: b,
            elsifs: xs,
            otherwise,
        } => {
            let blocks = plus(block(count, b), elsifs(count, xs.as_slice(), otherwise));
            plus(own, plus(scalar(count, condition), blocks))
        }
        StatementForm::Loop {
            invariant,
            block: b,
        } => { plus(own, plus(test(count, invariant), block(count, b))) }
        StatementForm::For {
            range: r,
            invariant,
            block: b,
            ..
        } => {
            let tests = test(count, invariant);
            plus(own, plus(range(count, r), plus(tests, block(count, b))))
        }
        StatementForm::Case {
            subject,
            arms: xs,
            otherwise,
        } => {
            let blocks = arms(count, xs.as_slice(), otherwise);
            plus(own, plus(scalar(count, subject), blocks))
        }
        StatementForm::Begin(b) => plus(own, block(count, b)),
        StatementForm::Module { block: b, .. } => plus(own, block(count, b)),
    }
}

#[cycle(statements)]
fn elsifs(count: &Count, xs: &[Elsif], last: &Block) -> u64
    ensures { result ≡ of_otherwise (counting count.now) (elsifs_view xs.now last.now) }
{
    let mut sum = 0;
    for x in xs {
        let arm = plus(scalar(count, &x.condition), block(count, &x.block));
        sum = plus(sum, plus(where_nodes(count, 1), arm));
    }
    plus(sum, block(count, last))
}

#[cycle(statements)]
fn default(count: &Count, last: &Option<Block>) -> u64
    ensures { result ≡ of_arms (counting count.now) (last_view last.now) }
{
    match last {
        None => 0,
        Some(b) => plus(where_nodes(count, 1), block(count, b)),
    }
}

#[cycle(statements)]
fn arms(count: &Count, xs: &[Arm], last: &Option<Block>) -> u64
    ensures { result ≡ of_arms (counting count.now) (arms_view xs.now last.now) }
{
    let mut sum = 0;
    for x in xs {
        sum = plus(sum, plus(where_nodes(count, 1), block(count, &x.block)));
    }
    plus(sum, default(count, last))
}

/// What a block adds.
#[cycle(statements)]
pub fn block(count: &Count, b: &Block) -> u64
    ensures { result ≡ of_block (counting count.now) b.now }
{
    let mut sum = 0;
    for x in b.parts.as_slice() {
        sum = plus(sum, part(count, x));
    }
    sum
}

#[cycle(statements)]
fn part(count: &Count, x: &Part) -> u64
    ensures { result ≡ one_part (counting count.now) x.now }
{
    match x {
        Part::Then(s) => statement(count, s),
        Part::Declare(_, d) => declaration(count, d),
        Part::Bind { place, .. } => { plus(where_nodes(count, 1), path(count, place)) }
    }
}

/// The nodes of a text.
pub fn nodes(b: &Block) -> u64
    ensures { result ≡ capped (of_block nodes_of b.now) }
{
    block(&Count::Nodes, b)
}
