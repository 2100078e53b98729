// The code of statements.
ghost use Rattle.std.specs.Prelude.{◌≡◌, ◌+◌, ◌*◌, ◌≤◌, [], ◌∷◌, OnOk};
ghost use Rattle.ir_code.specs.Pieces.{leave, once, repeat, with_op};
ghost use Rattle.tu_tree.specs.StatementViews.{elsifs_view};
ghost use Rattle.tu_value.specs.declared.pieces.Fixed.{Fixed};
ghost use Rattle.ir_build.specs.Code.{named};
ghost use Rattle.ir_build.specs.Compared.{tested_code};
ghost use Rattle.ir_build.specs.Tokens.{tokens_in};
ghost use Rattle.ir_stmt.specs.Code.{code_block, code_elsifs, code_simple, code_statement, enclosed, inside, stored, with_arm};
ghost use Rattle.ir_stmt.specs.Made.{assigned, left_where};

use crate::printing::put;
use ir_build::{Environment, Names, Tested, condition, expression, where_tested};
use ir_code::{Code, leave, once, repeat};
use sqlite_items::Items;
use std::alloc::Global;
use tu_base::{Line, Memory};
use tu_expr::Path;
use tu_tree::{Block, BlockPart, Elsif, Expr, Statement, StatementForm};
use tu_value::store;

/// Appends what stores a value in a variable.
pub fn store_in(code: &mut Code, names: &Names, name: &[u8], from: u32) -> Result<(), Memory>
    ensures code { (k : Fixed) → OnOk result (code.new ≡ stored k names.now code.old (named name.now names.now) from) }
    ensures next { OnOk result (code.new.next ≡ code.old.next) }
{
    match names.find(name) {
        None => Ok(()),
        Some(at) => store(code, at, from),
    }
}

fn assign(
    code: &mut Code,
    environment: &Environment<'_>,
    line: Line,
    path: &Path,
    value: &Expr,
) -> Result<(), Memory>
    requires { code.old.next + 12 * tokens_in value.now ≤ 4294967295 }
    ensures code { OnOk result (code.new ≡ assigned environment.now.fixed environment.now.names.now line path.now value.now code.old) }
    ensures next { OnOk result (code.new.next ≤ code.old.next + 12 * tokens_in value.now) }
{
    if !path.steps.is_empty() {
        return Ok(());
    }
    let from = expression(code, environment, line, value)?;
    store_in(code, environment.names, path.root.text.as_slice(), from)
}

// Appends what leaves a loop where a condition holds.
fn exit_when(
    code: &mut Code,
    environment: &Environment<'_>,
    outside: u32,
    line: Line,
    expr: &Expr,
) -> Result<(), Memory>
    requires { code.old.next + 12 * tokens_in expr.now ≤ 4294967295 }
    ensures code { OnOk result (code.new ≡ left_where environment.now.fixed environment.now.names.now outside line expr.now code.old) }
    ensures next { OnOk result (code.new.next ≤ code.old.next + 12 * tokens_in expr.now) }
{
    let alloc = environment.alloc;
    let tested = condition(code, environment, line, expr)?;
    let mut first = Items::new(alloc);
    first.push(leave(alloc, outside))?;
    code.push(where_tested(alloc, tested, first, Items::new(alloc)))
}

// Appends a statement without blocks.
fn simple(
    code: &mut Code,
    environment: &Environment<'_>,
    outside: u32,
    statement: &Statement,
) -> Result<(), Memory>
    requires { code.old.next + 12 * tokens_in statement.now ≤ 4294967295 }
    ensures code { OnOk result (code.new ≡ code_simple environment.now.fixed environment.now.names.now outside statement.now code.old) }
    ensures next { OnOk result (code.new.next ≤ code.old.next + 12 * tokens_in statement.now) }
{
    let line = statement.at.line;
    match &statement.form {
        StatementForm::Assign(path, value) => assign(code, environment, line, path, value.get()),
        StatementForm::Exit => code.push(leave(environment.alloc, outside)),
        StatementForm::ExitWhen(expr) => exit_when(code, environment, outside, line, expr.get()),
        StatementForm::Put {
            stream,
            first,
            more,
            is_open,
        } => {
            if stream.is_some() {
                return Ok(());
            }
            let more = more.as_slice();
            put(code, environment, line, first, more, *is_open)
        }
        _ => Ok(()),
    }
}

// Appends operations that are done once.
fn enclose_once(code: &mut Code, alloc: Global, arms: Code) -> Result<(), Memory>
    ensures { OnOk result (code.new ≡ enclosed code.old once (with_op arms (leave 0))) }
{
    let mut arms = arms;
    arms.push(leave(alloc, 0))?;
    let Code { ops, next } = arms;
    code.next = next;
    code.push(once(alloc, ops))
}

/// Appends a statement.
#[cycle(code)]
pub fn statement(
    code: &mut Code,
    environment: &Environment<'_>,
    outside: u32,
    statement: &Statement,
) -> Result<(), Memory>
    requires room { code.old.next + 12 * tokens_in statement.now ≤ 4294967295 }
    requires depth { outside + tokens_in statement.now ≤ 4294967295 }
    ensures code { OnOk result (code.new ≡ code_statement environment.now.fixed environment.now.names.now outside statement.now code.old) }
    ensures next { OnOk result (code.new.next ≤ code.old.next + 12 * tokens_in statement.now) }
{
    match &statement.form {
        StatementForm::If {
            condition: test,
            block: first,
            elsifs,
            otherwise,
        } => {
            let mut arms = Code::new(environment.alloc, code.next);
            let line = statement.at.line;
            let depth = outside + 1;
            let tested = condition(&mut arms, environment, line, test.get())?;
            arm(&mut arms, environment, depth, tested, first)?;
            further_arms(&mut arms, environment, depth, elsifs.as_slice())?;
            match otherwise {
                None => enclose_once(code, environment.alloc, arms),
                Some(last) => {
                    block(&mut arms, environment, depth, last)?;
                    enclose_once(code, environment.alloc, arms)
                }
            }
        }
        StatementForm::Loop(invariant, body) => match invariant {
            Some(_) => Ok(()),
            None => rounds(code, environment, body),
        },
        _ => simple(code, environment, outside, statement),
    }
}

// Appends the rounds of a loop.
#[cycle(code)]
fn rounds(code: &mut Code, environment: &Environment<'_>, body: &Block) -> Result<(), Memory>
    requires { code.old.next + 12 * tokens_in body.now ≤ 4294967295 }
    ensures code { OnOk result
        (code.new ≡ enclosed code.old repeat (code_block environment.now.fixed environment.now.names.now 0 body.now (inside code.old))) }
    ensures next { OnOk result (code.new.next ≤ code.old.next + 12 * tokens_in body.now) }
{
    let mut inner = Code::new(environment.alloc, code.next);
    block(&mut inner, environment, 0, body)?;
    let Code { ops, next } = inner;
    code.next = next;
    code.push(repeat(environment.alloc, ops))
}

// Appends an arm of an `if`, which ends it.
#[cycle(code)]
fn arm(
    code: &mut Code,
    environment: &Environment<'_>,
    outside: u32,
    tested: Tested,
    body: &Block,
) -> Result<(), Memory>
    requires room { code.old.next + 12 * tokens_in body.now ≤ 4294967295 }
    requires depth { outside + tokens_in body.now ≤ 4294967295 }
    ensures code { OnOk result
        (code.new ≡ with_arm (tested_code code.old tested) (code_block environment.now.fixed environment.now.names.now outside body.now (inside code.old))) }
    ensures next { OnOk result (code.new.next ≤ code.old.next + 12 * tokens_in body.now) }
{
    let alloc = environment.alloc;
    let mut first = Code::new(alloc, code.next);
    block(&mut first, environment, outside, body)?;
    first.push(leave(alloc, 0))?;
    let Code { ops, next } = first;
    code.next = next;
    code.push(where_tested(alloc, tested, ops, Items::new(alloc)))
}

// Appends the arms of an `if` behind the first one.
#[cycle(code)]
fn further_arms(
    code: &mut Code,
    environment: &Environment<'_>,
    outside: u32,
    elsifs: &[Elsif],
) -> Result<(), Memory>
    requires room { code.old.next + 12 * tokens_in (elsifs_view elsifs.now) ≤ 4294967295 }
    requires depth { outside + tokens_in (elsifs_view elsifs.now) ≤ 4294967295 }
    ensures code { OnOk result (code.new ≡ code_elsifs environment.now.fixed environment.now.names.now outside (elsifs_view elsifs.now) code.old) }
    ensures next { OnOk result (code.new.next ≤ code.old.next + 12 * tokens_in (elsifs_view elsifs.now)) }
{
    for elsif in elsifs {
        let line = elsif.spot.line;
        let test = elsif.condition.get();
        let tested = condition(code, environment, line, test)?;
        arm(code, environment, outside, tested, &elsif.block)?;
    }
    Ok(())
}

// Appends the statements of a block.
#[cycle(code)]
fn block(
    code: &mut Code,
    environment: &Environment<'_>,
    outside: u32,
    block: &Block,
) -> Result<(), Memory>
    requires room { code.old.next + 12 * tokens_in block.now ≤ 4294967295 }
    requires depth { outside + tokens_in block.now ≤ 4294967295 }
    ensures code { OnOk result (code.new ≡ code_block environment.now.fixed environment.now.names.now outside block.now code.old) }
    ensures next { OnOk result (code.new.next ≤ code.old.next + 12 * tokens_in block.now) }
{
    for (part, _) in block.parts.as_slice() {
        let BlockPart::Statement(inner) = part else {
            return Ok(());
        };
        statement(code, environment, outside, inner)?;
    }
    Ok(())
}
