// Blocks, and statements with blocks.
ghost use Rattle.std.specs.Prelude.{◌≡◌, OnOk};
ghost use Rattle.grammar.specs.Description.{rule};
ghost use Rattle.grammar.specs.Tree.{n-sequence};
ghost use Rattle.tu_token.specs.Rules.{r-expr, r-invariant};
ghost use Rattle.tu_expr.specs.Leaves.{leaf_view};
ghost use Rattle.tu_expr.specs.Parts.{listing, mark_of, optional};
ghost use Rattle.tu_tree.specs.StatementViews.{block_part_view, else_view, last_arm_view};
ghost use Rattle.tu_scope_parts.specs.Adds.{Adds, Extends};
ghost use Rattle.tu_scope_parts.specs.Walk.{events, named_scope};
ghost use Rattle.tu_scope.specs.Statements.{within};

use crate::statements::walk_simple;
use tu_base::Memory;
use tu_scope_parts::{
    Events, declare, walk_any_invariant, walk_bind, walk_const, walk_expr, walk_labels, walk_range,
    walk_type, walk_var,
};
use tu_scope_rules::Context;
use tu_token::Class;
use tu_tree::{Arm, Block, BlockPart, Elsif, Invariant, Leaf, Otherwise, Statement, StatementForm};

/// The number of a block.
pub fn number_of(block: &Block) -> u32
    ensures { result ≡ (mark_of block.now).number }
{
    block.at.number
}

// The scope of a `for`, before its block goes on in it.
fn begin_for<'a>(
    name: &'a Leaf,
    invariant: &'a Option<Invariant>,
    block: &Block,
    out: &mut Events<'a>,
) -> Result<(), Memory>
    ensures { OnOk result (Extends (named_scope (mark_of block.now).number (leaf_view Class.Name name.now) (events Context.Elsewhere (optional (rule r-invariant) invariant.now))) out.old out.new) }
{
    out.open(number_of(block))?;
    declare(name, out)?;
    walk_any_invariant(invariant, out)?;
    out.close()?;
    Ok(())
}

/// Adds the events of a block.
#[cycle(block)]
pub fn walk_block<'a>(block: &'a Block, out: &mut Events<'a>) -> Result<(), Memory>
    ensures { OnOk result (Adds Context.Elsewhere block.now out.old out.new) }
{
    out.open(block.at.number)?;
    for x in block.parts.as_slice() {
        walk_part(&x.0, out)?;
    }
    out.close()?;
    Ok(())
}

#[cycle(block)]
fn walk_part<'a>(part: &'a BlockPart, out: &mut Events<'a>) -> Result<(), Memory>
    ensures { OnOk result (Adds Context.Elsewhere (block_part_view part.now) out.old out.new) }
{
    match part {
        BlockPart::Const(part) => walk_const(part, out),
        BlockPart::Var(part) => walk_var(part, out),
        BlockPart::Type(part) => walk_type(part, out),
        BlockPart::Bind(part) => walk_bind(part, out),
        BlockPart::Statement(part) => walk_statement(part, out),
    }
}

#[cycle(block)]
fn walk_elsif<'a>(elsif: &'a Elsif, out: &mut Events<'a>) -> Result<(), Memory>
    ensures { OnOk result (Adds Context.Elsewhere elsif.now out.old out.new) }
{
    walk_expr(Context::Elsewhere, elsif.condition.get(), out)?;
    walk_block(&elsif.block, out)?;
    Ok(())
}

#[cycle(block)]
fn walk_else<'a>(otherwise: &'a Option<Block>, out: &mut Events<'a>) -> Result<(), Memory>
    ensures { OnOk result (Adds Context.Elsewhere (else_view otherwise.now) out.old out.new) }
{
    match otherwise {
        Some(block) => walk_block(block, out),
        None => Ok(()),
    }
}

#[cycle(block)]
fn walk_arm<'a>(arm: &'a Arm, out: &mut Events<'a>) -> Result<(), Memory>
    ensures { OnOk result (Adds Context.Elsewhere (n-sequence (listing r-expr arm.now.first arm.now.more) arm.now.block) out.old out.new) }
{
    walk_labels(arm.first.get(), &arm.more, out)?;
    walk_block(&arm.block, out)?;
    Ok(())
}

#[cycle(block)]
fn walk_last_arm<'a>(otherwise: &'a Option<Otherwise>, out: &mut Events<'a>) -> Result<(), Memory>
    ensures { OnOk result (Adds Context.Elsewhere (last_arm_view otherwise.now) out.old out.new) }
{
    match otherwise {
        Some(arm) => walk_block(&arm.block, out),
        None => Ok(()),
    }
}

/// Adds the events of a statement.
#[cycle(block)]
pub fn walk_statement<'a>(statement: &'a Statement, out: &mut Events<'a>) -> Result<(), Memory>
    ensures { OnOk result (Adds Context.Elsewhere statement.now out.old out.new) }
{
    match &statement.form {
        StatementForm::If {
            condition,
            block,
            elsifs,
            otherwise,
        } => {
            walk_expr(Context::Elsewhere, condition.get(), out)?;
            walk_block(block, out)?;
            for x in elsifs.as_slice() {
                walk_elsif(x, out)?;
            }
            walk_else(otherwise, out)
        }
        StatementForm::Loop(invariant, block) => {
            walk_any_invariant(invariant, out)?;
            walk_block(block, out)
        }
        StatementForm::For {
            is_decreasing: _,
            name,
            range,
            invariant,
            block,
        } => {
            walk_range(range, out)?;
            begin_for(name, invariant, block, out)?;
            walk_block(block, out)
        }
        StatementForm::Case {
            subject,
            arms,
            otherwise,
        } => {
            walk_expr(Context::Elsewhere, subject.get(), out)?;
            for x in arms.as_slice() {
                walk_arm(x, out)?;
            }
            walk_last_arm(otherwise, out)
        }
        StatementForm::Begin(block) => walk_block(block, out),
        _ => walk_simple(&statement.form, out),
    }
}

/// Adds the events of a body, whose scope has begun before.
pub fn walk_body<'a>(block: &'a Block, out: &mut Events<'a>) -> Result<(), Memory>
    ensures { OnOk result (Extends (within block.now) out.old out.new) }
{
    for x in block.parts.as_slice() {
        walk_part(&x.0, out)?;
    }
    Ok(())
}
