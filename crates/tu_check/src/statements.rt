// Statements that are not built.
ghost use Rattle.std.specs.Prelude.{◌≡◌, true};
ghost use Rattle.grammar.specs.Description.{rule};
ghost use Rattle.tu_token.specs.declared.class.Class.TheVariants.{SignComma};
ghost use Rattle.tu_token.specs.Rules.{r-shown};
ghost use Rattle.tu_expr.specs.Parts.{chain};
ghost use Rattle.tu_tree.specs.StatementViews.{block_part_view};
ghost use Rattle.tu_check.specs.Built.{unbuilt_shown, unbuilt_shown_more, unbuilt_plain, unbuilt_statement, unbuilt_elsif, unbuilt_block, unbuilt_part};

use crate::declared::Declared;
use crate::values::{unbuilt, unbuilt_condition, unbuilt_path};
use tu_base::Line;
use tu_tree::{Block, BlockPart, Elsif, Shown, Statement, StatementForm};

fn unbuilt_shown(declared: &Declared, shown: &Shown) -> Option<Line>
    ensures { result ≡ unbuilt_shown declared.now shown.now }
{
    let value = unbuilt(declared, shown.value.get());
    match &shown.width {
        None => value,
        Some(width) => value.or(unbuilt(declared, width.get())),
    }
}

fn unbuilt_shown_more(declared: &Declared, more: &[Shown]) -> Option<Line>
    ensures { result ≡ unbuilt_shown_more declared.now (chain SignComma (rule r-shown) more.now) }
{
    for shown in more {
        if let Some(line) = unbuilt_shown(declared, shown) {
            return Some(line);
        }
    }
    None
}

// A statement without a block.
fn unbuilt_plain(declared: &Declared, is_inside: bool, statement: &Statement) -> Option<Line>
    ensures { result ≡ unbuilt_plain declared.now is_inside statement.now }
{
    match &statement.form {
        StatementForm::Assign(path, value) => {
            unbuilt_path(declared, path).or(unbuilt(declared, value.get()))
        }
        StatementForm::Exit if is_inside => None,
        StatementForm::ExitWhen(condition) if is_inside => {
            unbuilt_condition(declared, condition.get())
        }
        StatementForm::Put {
            stream,
            first,
            more,
            ..
        } => match stream {
            None => unbuilt_shown(declared, first).or(unbuilt_shown_more(
                declared,
                more.as_slice(),
            )),
            Some(_) => Some(statement.at.line),
        },
        _ => Some(statement.at.line),
    }
}

/// The line of the first form in a statement that is not built, where it is within a loop or not.
#[cycle(statement)]
pub fn unbuilt_statement(
    declared: &Declared,
    is_inside: bool,
    statement: &Statement,
) -> Option<Line>
    ensures { result ≡ unbuilt_statement declared.now is_inside statement.now }
{
    match &statement.form {
        StatementForm::If {
            condition,
            block,
            elsifs,
            otherwise,
        } => {
            let condition = unbuilt_condition(declared, condition.get());
            if let Some(line) = condition.or(unbuilt_block(declared, is_inside, block)) {
                return Some(line);
            }
            for elsif in elsifs.as_slice() {
                if let Some(line) = unbuilt_elsif(declared, is_inside, elsif) {
                    return Some(line);
                }
            }
            match otherwise {
                None => None,
                Some(block) => unbuilt_block(declared, is_inside, block),
            }
        }
        StatementForm::Loop(invariant, block) => match invariant {
            None => unbuilt_block(declared, true, block),
            Some(_) => Some(statement.at.line),
        },
        _ => unbuilt_plain(declared, is_inside, statement),
    }
}

#[cycle(statement)]
fn unbuilt_elsif(declared: &Declared, is_inside: bool, elsif: &Elsif) -> Option<Line>
    ensures { result ≡ unbuilt_elsif declared.now is_inside elsif.now }
{
    let condition = unbuilt_condition(declared, elsif.condition.get());
    condition.or(unbuilt_block(declared, is_inside, &elsif.block))
}

#[cycle(statement)]
fn unbuilt_block(declared: &Declared, is_inside: bool, block: &Block) -> Option<Line>
    ensures { result ≡ unbuilt_block declared.now is_inside block.now }
{
    for (part, _) in block.parts.as_slice() {
        if let Some(line) = unbuilt_part(declared, is_inside, part) {
            return Some(line);
        }
    }
    None
}

#[cycle(statement)]
fn unbuilt_part(declared: &Declared, is_inside: bool, part: &BlockPart) -> Option<Line>
    ensures { result ≡ unbuilt_part declared.now is_inside (block_part_view part.now) }
{
    match part {
        BlockPart::Statement(statement) => unbuilt_statement(declared, is_inside, statement),
        BlockPart::Const(part) => Some(part.at.line),
        BlockPart::Var(part) => Some(part.at.line),
        BlockPart::Type(part) => Some(part.at.line),
        BlockPart::Bind(part) => Some(part.at.line),
    }
}
