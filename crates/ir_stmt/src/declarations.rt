// The code of declarations.
ghost use Rattle.std.specs.Prelude.{◌≡◌, ◌+◌, ◌*◌, ◌<◌, ◌≤◌, [], ◌∷◌, None, OnOk, length, true};
ghost use Rattle.tu_tree_meaning.specs.Interpreter.{names_of};
ghost use Rattle.tu_value.specs.declared.pieces.Fixed.{Fixed};
ghost use Rattle.ir_build.specs.Keeps.{variables_of};
ghost use Rattle.ir_build.specs.Code.{named};
ghost use Rattle.ir_build.specs.Tokens.{tokens_in};
ghost use Rattle.ir_stmt.specs.Built.{are_new, names_in};
ghost use Rattle.ir_stmt.specs.Code.{code_var, declare_all, started, store_all};
ghost use Rattle.ir_stmt.specs.Made.{declared};

use crate::statements::store_in;
use ir_build::{Environment, Names, expression};
use ir_code::Code;
use std::alloc::Global;
use tu_base::{Line, Memory};
use tu_tree::{Expr, StartForm, Var, VarForm};
use tu_value::{Fixed, unset};

// Declares a variable, which is unset.
fn declare(
    code: &mut Code,
    alloc: Global,
    fixed: Fixed,
    names: &mut Names,
    name: &[u8],
) -> Result<(), Memory>
    requires room { code.old.next < 4294967295 }
    requires words { length names.old < 4294967295 }
    requires new { named name.now names.old ≡ None }
    ensures { OnOk result
        (declared code.new names.new ≡ declare_all fixed (name.now ∷ []) (declared code.old names.old)) }
{
    let word = names.len() as u32;
    let at = code.global(word)?;
    unset(code, fixed, at)?;
    names.declare(alloc, name, at)
}

// Declares the variables that are listed.
fn declare_listed(
    code: &mut Code,
    alloc: Global,
    fixed: Fixed,
    names: &mut Names,
    listed: &tu_tree::Names,
) -> Result<(), Memory>
    requires room { code.old.next + 12 * tokens_in listed.now ≤ 4294967295 }
    requires words { length names.old + 12 * tokens_in listed.now ≤ 4294967295 }
    requires new { are_new (variables_of names.old) (names_of listed.now) ≡ true }
    ensures code { OnOk result
        (declared code.new names.new ≡ declare_all fixed (names_of listed.now) (declared code.old names.old)) }
    ensures next { OnOk result (code.new.next ≤ code.old.next + 12 * tokens_in listed.now) }
    ensures words { OnOk result (length names.new ≤ length names.old + 12 * tokens_in listed.now) }
{
    declare(code, alloc, fixed, names, listed.first.text.as_slice())?;
    for name in listed.more.as_slice() {
        declare(code, alloc, fixed, names, name.text.as_slice())?;
    }
    Ok(())
}

// Appends what stores a value in the variables that are listed.
fn store_in_all(
    code: &mut Code,
    names: &Names,
    listed: &tu_tree::Names,
    from: u32,
) -> Result<(), Memory>
    ensures code { (k : Fixed) → OnOk result (code.new ≡ store_all k names.now from (names_of listed.now) code.old) }
    ensures next { OnOk result (code.new.next ≡ code.old.next) }
{
    store_in(code, names, listed.first.text.as_slice(), from)?;
    for name in listed.more.as_slice() {
        store_in(code, names, name.text.as_slice(), from)?;
    }
    Ok(())
}

// Appends what gives variables the value with which they begin.
fn start(
    code: &mut Code,
    environment: &Environment<'_>,
    line: Line,
    listed: &tu_tree::Names,
    value: &Expr,
) -> Result<(), Memory>
    requires { code.old.next + 12 * tokens_in value.now ≤ 4294967295 }
    ensures code { OnOk result
        (declared code.new environment.now.names.now ≡ started environment.now.fixed line (names_of listed.now) value.now (declared code.old environment.now.names.now)) }
    ensures next { OnOk result (code.new.next ≤ code.old.next + 12 * tokens_in value.now) }
{
    let from = expression(code, environment, line, value)?;
    store_in_all(code, environment.names, listed, from)
}

/// Declares variables, and appends what gives them the value with which they begin.
pub fn declaration(
    code: &mut Code,
    alloc: Global,
    fixed: Fixed,
    names: &mut Names,
    var: &Var,
) -> Result<(), Memory>
    requires room { code.old.next + 12 * tokens_in var.now ≤ 4294967295 }
    requires words { length names.old + 12 * tokens_in var.now ≤ 4294967295 }
    requires new { are_new (variables_of names.old) (names_in var.now) ≡ true }
    ensures code { OnOk result
        (declared code.new names.new ≡ code_var fixed var.now (declared code.old names.old)) }
    ensures next { OnOk result (code.new.next ≤ code.old.next + 12 * tokens_in var.now) }
    ensures words { OnOk result (length names.new ≤ length names.old + 12 * tokens_in var.now) }
{
    let line = var.at.line;
    match &var.form {
        VarForm::Collection(_) => Ok(()),
        VarForm::Started(value) => {
            declare_listed(code, alloc, fixed, names, &var.names)?;
            let environment = Environment {
                alloc,
                fixed,
                names,
            };
            start(code, &environment, line, &var.names, value.get())
        }
        VarForm::Typed(_, None) => declare_listed(code, alloc, fixed, names, &var.names),
        VarForm::Typed(_, Some(first)) => match &first.form {
            StartForm::Init(..) => Ok(()),
            StartForm::Value(value) => {
                declare_listed(code, alloc, fixed, names, &var.names)?;
                let environment = Environment {
                    alloc,
                    fixed,
                    names,
                };
                start(code, &environment, line, &var.names, value.get())
            }
        },
    }
}
