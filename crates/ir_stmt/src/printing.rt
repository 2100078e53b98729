// The code of `put`.
ghost use Rattle.std.specs.Prelude.{◌≡◌, ◌+◌, ◌*◌, ◌≤◌, IfOk, OnOk};
ghost use Rattle.grammar.specs.Description.{rule};
ghost use Rattle.grammar.specs.Tree.{n-token};
ghost use Rattle.tu_token.specs.Rules.{r-shown};
ghost use Rattle.tu_token.specs.declared.class.Class.TheVariants.{SignComma, SignRange};
ghost use Rattle.tu_expr.specs.Forms.{Behind, Present};
ghost use Rattle.tu_expr.specs.Parts.{chain};
ghost use Rattle.tu_tree.specs.Parts.{flag};
ghost use Rattle.ir_build.specs.Code.{made};
ghost use Rattle.ir_build.specs.Tokens.{tokens_in};
ghost use Rattle.ir_stmt.specs.Code.{code_end, code_shown, code_shown_more, code_width};

use ir_build::{Environment, expression};
use ir_code::Code;
use rt_stream::{PUT_INT, PUT_LINE};
use rv_isa::Relation;
use tu_base::{Kind, Line, Memory};
use tu_tree::{Expr, Shown};
use tu_value::number;

// Appends what works out a width.
fn width(
    code: &mut Code,
    environment: &Environment<'_>,
    line: Line,
    width: &Expr,
) -> Result<u32, Memory>
    requires { code.old.next + 12 * (tokens_in width.now + 1) ≤ 4294967295 }
    ensures made { IfOk result (λ value. made code.new value ≡ code_width environment.now.fixed environment.now.names.now line (Present (Behind n-token width.now)) code.old) }
    ensures next { OnOk result (code.new.next ≤ code.old.next + 12 * (tokens_in width.now + 1)) }
{
    let value = expression(code, environment, line, width)?;
    let size = number(code, environment.fixed, value)?;
    let limit = code.constant(256)?;
    code.raise_unless(
        environment.alloc,
        Relation::LessUnsigned,
        size,
        limit,
        Kind::Range,
        line,
    )?;
    Ok(size)
}

// Appends what puts a value.
fn shown(
    code: &mut Code,
    environment: &Environment<'_>,
    line: Line,
    shown: &Shown,
) -> Result<(), Memory>
    requires { code.old.next + 12 * tokens_in shown.now ≤ 4294967295 }
    ensures code { OnOk result (code.new ≡ code_shown environment.now.fixed environment.now.names.now line shown.now code.old) }
    ensures next { OnOk result (code.new.next ≤ code.old.next + 12 * tokens_in shown.now) }
{
    let alloc = environment.alloc;
    let value = expression(code, environment, line, shown.value.get())?;
    match &shown.width {
        None => code.call(alloc, PUT_INT, &[value, environment.fixed.zero], line),
        Some(least) => {
            let size = width(code, environment, line, least.get())?;
            code.call(alloc, PUT_INT, &[value, size], line)
        }
    }
}

// Appends what puts a value and those behind it.
fn all_shown(
    code: &mut Code,
    environment: &Environment<'_>,
    line: Line,
    first: &Shown,
    more: &[Shown],
) -> Result<(), Memory>
    requires { code.old.next + 12 * (tokens_in first.now + tokens_in (chain SignComma (rule r-shown) more.now)) ≤ 4294967295 }
    ensures code { OnOk result (code.new ≡ code_shown_more environment.now.fixed environment.now.names.now line (chain SignComma (rule r-shown) more.now) (code_shown environment.now.fixed environment.now.names.now line first.now code.old)) }
    ensures next { OnOk result (code.new.next ≤ code.old.next + 12 * (tokens_in first.now + tokens_in (chain SignComma (rule r-shown) more.now))) }
{
    shown(code, environment, line, first)?;
    for part in more {
        shown(code, environment, line, part)?;
    }
    Ok(())
}

/// Appends what puts values, and what ends their line where it is not kept open.
pub fn put(
    code: &mut Code,
    environment: &Environment<'_>,
    line: Line,
    first: &Shown,
    more: &[Shown],
    is_open: bool,
) -> Result<(), Memory>
    requires { code.old.next + 12 * (tokens_in first.now + tokens_in (chain SignComma (rule r-shown) more.now)) ≤ 4294967295 }
    ensures code { OnOk result
        (code.new ≡ code_end environment.now.fixed environment.now.names.now line (flag SignRange is_open) (code_shown_more environment.now.fixed environment.now.names.now line (chain SignComma (rule r-shown) more.now) (code_shown environment.now.fixed environment.now.names.now line first.now code.old))) }
    ensures next { OnOk result (code.new.next ≤ code.old.next + 12 * (tokens_in first.now + tokens_in (chain SignComma (rule r-shown) more.now))) }
{
    all_shown(code, environment, line, first, more)?;
    if is_open {
        return Ok(());
    }
    code.call(environment.alloc, PUT_LINE, &[], line)
}
