// The unit of a program.
ghost use Rattle.std.specs.Prelude.{◌≡◌, ◌+◌, ◌*◌, ◌≤◌, IfOk, OnOk, length, true};
ghost use Rattle.tu_base.specs.declared.limits.TheConstants.{MOST_LITERAL_BYTES, MOST_TOKENS};
ghost use Rattle.grammar.specs.Description.{print};
ghost use Rattle.grammar.specs.Tree.{erase};
ghost use Rattle.ir_form.specs.Lawful.{IsLawful};
ghost use Rattle.ir_form.specs.Valid.{IsValid};
ghost use Rattle.ir_form.specs.Weight.{unit_weight};
ghost use Rattle.ir_build.specs.Keeps.{variables_of};
ghost use Rattle.ir_build.specs.Tokens.{tokens_in};
ghost use Rattle.ir_stmt.specs.Built.{are_new, is_program_built};
ghost use Rattle.ir_stmt.specs.Code.{code_item};
ghost use Rattle.ir_stmt.specs.Made.{declared, names_in_item, whole_unit};
ghost use Rattle.ir_stmt.specs.Unit.{HasNoGuards, IsKept, unit_of};

use crate::declarations::declaration;
use crate::statements::statement;
use ir_build::{Environment, Names};
use ir_code::Code;
use ir_form::{Region, Routine, Unit, run_is_steady, valid_is_sound};
use rt_stream::routines;
use sqlite_items::Items;
use std::alloc::Global;
use tu_base::{Bytes, Memory};
use tu_check::{Checked, accepted_has_limits};
use tu_tree::{Item, ItemForm, Tree};
use tu_value::{Fixed, fixed_values};

// Appends an item.
fn item(
    code: &mut Code,
    alloc: Global,
    fixed: Fixed,
    names: &mut Names,
    item: &Item,
) -> Result<(), Memory>
    requires room { code.old.next + 12 * tokens_in item.now ≤ 4294967295 }
    requires words { length names.old + 12 * tokens_in item.now ≤ 4294967295 }
    requires new { are_new (variables_of names.old) (names_in_item item.now) ≡ true }
    ensures code { OnOk result
        (declared code.new names.new ≡ code_item fixed item.now (declared code.old names.old)) }
    ensures next { OnOk result (code.new.next ≤ code.old.next + 12 * tokens_in item.now) }
    ensures words { OnOk result (length names.new ≤ length names.old + 12 * tokens_in item.now) }
{
    match &item.form {
        ItemForm::Var(var) => declaration(code, alloc, fixed, names, var),
        ItemForm::Statement(inner) => {
            let environment = Environment {
                alloc,
                fixed,
                names,
            };
            statement(code, &environment, 0, inner)
        }
        ItemForm::Const(_) | ItemForm::Type(_) | ItemForm::Subprogram(_) | ItemForm::Module(_) =>
            Ok(()),
    }
}

// The unit with a main program, behind the routines of the run time.
fn whole_unit(alloc: Global, code: Code, globals: u32) -> Result<Unit, Memory>
    ensures { IfOk result (λ unit. unit ≡ whole_unit code globals) }
{
    let Code { ops, next } = code;
    let mut all = routines(alloc)?;
    all.push(Routine {
        body: Region {
            parameters: Items::new(alloc),
            ops,
            results: Items::new(alloc),
        },
        results: 0,
        room: next as u64 + 32,
        words: 0,
        depth: 0,
    })?;
    Ok(Unit {
        globals,
        main: 2,
        routines: all,
        texts: Bytes::make(alloc),
    })
}

// The unit of a program of at most 65,536 tokens whose forms are built.
fn unit_of(alloc: Global, tree: &Tree) -> Result<Unit, Memory>
    requires built { is_program_built tree.now ≡ true }
    requires short { length (print (erase tree.now)) ≤ MOST_TOKENS }
    ensures { IfOk result (λ unit. unit ≡ unit_of tree.now) }
{
    let mut code = Code::new(alloc, 0);
    let fixed = fixed_values(&mut code)?;
    let mut names = Names::new(alloc);
    for (part, _) in tree.items.as_slice() {
        item(&mut code, alloc, fixed, &mut names, part)?;
    }
    let globals = names.len() as u32;
    whole_unit(alloc, code, globals)
}

/// The region code of a checked program: the routines of the run time, and behind them the main program.
pub fn unit(alloc: Global, checked: &Checked) -> Result<Unit, Memory>
    ensures kept { IfOk result (λ unit. IsKept checked.now unit) }
    ensures valid { IfOk result (λ unit. IsValid unit) }
    ensures lawful { IfOk result (λ unit. IsLawful unit) }
    ensures weight { IfOk result (λ unit. unit_weight unit ≤ 1179648) }
    ensures texts { IfOk result (λ unit. length unit.texts ≤ MOST_LITERAL_BYTES) }
    ensures unguarded { IfOk result (λ unit. HasNoGuards unit) }
{
    accepted_has_limits();
    run_is_steady();
    valid_is_sound();
    unit_of(alloc, checked.tree())
}
