// Blocks, and statements with blocks.
ghost use Rattle.std.specs.Prelude.{IfOk};
ghost use Rattle.tu_tree.specs.StatementViews.{block_part_view, else_view, last_arm_view, statement_view};
ghost use Rattle.tu_flatten.specs.Statements.{labelled_view};
ghost use Rattle.tu_flatten_parts.specs.Writes.{Writes};

use crate::statements::write_simple;
use sqlite_items::Items;
use tu_base::Memory;
use tu_flatten_parts::{
    Pieces, write_any_invariant, write_bind, write_const, write_expr, write_labels, write_range,
    write_type, write_var,
};
use tu_tree::{
    Arm, Block, BlockPart, Class, Elsif, Expr, Invariant, Leaf, Otherwise, Range, Statement,
    StatementForm,
};

/// Adds a block.
#[cycle(block)]
pub fn write_block(block: &Block, out: &mut Pieces) -> Result<(), Memory>
    ensures { IfOk result (λ _. Writes block.now out.old out.new) }
{
    for x in block.parts.as_slice() {
        write_part(&x.0, out)?;
        out.flag(Class::SignSemicolon, x.1)?;
    }
    Ok(())
}

#[cycle(block)]
fn write_part(part: &BlockPart, out: &mut Pieces) -> Result<(), Memory>
    ensures { IfOk result (λ _. Writes (block_part_view part.now) out.old out.new) }
{
    match part {
        BlockPart::Const(part) => write_const(part, out),
        BlockPart::Var(part) => write_var(part, out),
        BlockPart::Type(part) => write_type(part, out),
        BlockPart::Bind(part) => write_bind(part, out),
        BlockPart::Statement(part) => write_statement(part, out),
    }
}

#[cycle(block)]
fn write_elsif(elsif: &Elsif, out: &mut Pieces) -> Result<(), Memory>
    ensures { IfOk result (λ _. Writes elsif.now out.old out.new) }
{
    out.word(Class::WordElsif)?;
    write_expr(elsif.condition.get(), out)?;
    out.word(Class::WordThen)?;
    write_block(&elsif.block, out)?;
    Ok(())
}

#[cycle(block)]
fn write_else(otherwise: &Option<Block>, out: &mut Pieces) -> Result<(), Memory>
    ensures { IfOk result (λ _. Writes (else_view otherwise.now) out.old out.new) }
{
    match otherwise {
        Some(block) => {
            out.word(Class::WordElse)?;
            write_block(block, out)
        }
        None => Ok(()),
    }
}

#[cycle(block)]
fn write_arm(arm: &Arm, out: &mut Pieces) -> Result<(), Memory>
    ensures { IfOk result (λ _. Writes (labelled_view arm.now) out.old out.new) }
{
    out.word(Class::WordLabel)?;
    write_labels(arm.first.get(), &arm.more, out)?;
    out.word(Class::SignColon)?;
    write_block(&arm.block, out)?;
    Ok(())
}

#[cycle(block)]
fn write_last_arm(otherwise: &Option<Otherwise>, out: &mut Pieces) -> Result<(), Memory>
    ensures { IfOk result (λ _. Writes (last_arm_view otherwise.now) out.old out.new) }
{
    match otherwise {
        Some(arm) => {
            out.word(Class::WordLabel)?;
            out.word(Class::SignColon)?;
            write_block(&arm.block, out)
        }
        None => Ok(()),
    }
}

// An `if`, by its parts.
#[cycle(block)]
fn write_if(
    condition: &Expr,
    block: &Block,
    elsifs: &Items<Elsif>,
    otherwise: &Option<Block>,
    out: &mut Pieces,
) -> Result<(), Memory>
    ensures { IfOk result (λ _. Writes (statement_view (StatementForm.If condition.now block.now elsifs.now otherwise.now)) out.old out.new) }
{
    out.word(Class::WordIf)?;
    write_expr(condition, out)?;
    out.word(Class::WordThen)?;
    write_block(block, out)?;
    for x in elsifs.as_slice() {
        write_elsif(x, out)?;
    }
    write_else(otherwise, out)?;
    out.end(Class::WordIf)?;
    Ok(())
}

// A `for`, by its parts.
#[cycle(block)]
fn write_for(
    is_decreasing: bool,
    name: &Leaf,
    range: &Range,
    invariant: &Option<Invariant>,
    block: &Block,
    out: &mut Pieces,
) -> Result<(), Memory>
    ensures { IfOk result (λ _. Writes (statement_view (StatementForm.For is_decreasing name.now range.now invariant.now block.now)) out.old out.new) }
{
    out.word(Class::WordFor)?;
    out.flag(Class::WordDecreasing, is_decreasing)?;
    out.name(name)?;
    out.word(Class::SignColon)?;
    write_range(range, out)?;
    write_any_invariant(invariant, out)?;
    write_block(block, out)?;
    out.end(Class::WordFor)?;
    Ok(())
}

// A `case`, by its parts.
#[cycle(block)]
fn write_case(
    subject: &Expr,
    arms: &Items<Arm>,
    otherwise: &Option<Otherwise>,
    out: &mut Pieces,
) -> Result<(), Memory>
    ensures { IfOk result (λ _. Writes (statement_view (StatementForm.Case subject.now arms.now otherwise.now)) out.old out.new) }
{
    out.word(Class::WordCase)?;
    write_expr(subject, out)?;
    out.word(Class::WordOf)?;
    for x in arms.as_slice() {
        write_arm(x, out)?;
    }
    write_last_arm(otherwise, out)?;
    out.end(Class::WordCase)?;
    Ok(())
}

/// Adds a statement.
#[cycle(block)]
pub fn write_statement(statement: &Statement, out: &mut Pieces) -> Result<(), Memory>
    ensures { IfOk result (λ _. Writes statement.now out.old out.new) }
{
    match &statement.form {
        StatementForm::If {
            condition,
            block,
            elsifs,
            otherwise,
        } => write_if(condition.get(), block, elsifs, otherwise, out),
        StatementForm::Loop(invariant, block) => {
            out.word(Class::WordLoop)?;
            write_any_invariant(invariant, out)?;
            write_block(block, out)?;
            out.end(Class::WordLoop)
        }
        StatementForm::For {
            is_decreasing,
            name,
            range,
            invariant,
            block,
        } => write_for(*is_decreasing, name, range, invariant, block, out),
        StatementForm::Case {
            subject,
            arms,
            otherwise,
        } => write_case(subject.get(), arms, otherwise, out),
        StatementForm::Begin(block) => {
            out.word(Class::WordBegin)?;
            write_block(block, out)?;
            out.word(Class::WordEnd)
        }
        _ => write_simple(&statement.form, out),
    }
}
