// The first form in a program that is not built.
ghost use Rattle.std.specs.Prelude.{◌≡◌, None, IfOk};
ghost use Rattle.tu_tree.specs.DeclarationViews.{started_view};
ghost use Rattle.tu_check.specs.Built.{names_in, names_of, declared_after, unbuilt_item, unbuilt_names, unbuilt_program, unbuilt_spec, unbuilt_start, unbuilt_var, with_names};

use crate::declared::Declared;
use crate::statements::unbuilt_statement;
use crate::values::unbuilt;
use std::alloc::Global;
use tu_base::{Line, Memory};
use tu_tree::{BaseForm, Item, ItemForm, Names, Spec, Start, StartForm, Tree, Var, VarForm};

fn unbuilt_spec(spec: &Spec) -> Option<Line>
    ensures { result ≡ unbuilt_spec spec.now }
{
    if !spec.arrays.is_empty() {
        return Some(spec.at.line);
    }
    let base = &spec.base;
    match &base.form {
        BaseForm::Int => None,
        _ => Some(spec.at.line),
    }
}

fn unbuilt_start(declared: &Declared, start: &Option<Start>) -> Option<Line>
    ensures { result ≡ unbuilt_start declared.now (started_view start.now) }
{
    match start {
        None => None,
        Some(start) => match &start.form {
            StartForm::Value(value) => unbuilt(declared, value.get()),
            StartForm::Init(..) => Some(start.at.line),
        },
    }
}

// Declares names, up to the first that is declared before.
fn declare_names<'a>(declared: &mut Declared<'a>, names: &'a Names) -> Result<Option<Line>, Memory>
    ensures unbuilt { IfOk result (λ line. line ≡ unbuilt_names declared.old (names_of names.now)) }
    ensures declared { IfOk result (λ line. line ≡ None → declared.new ≡ with_names declared.old (names_of names.now)) }
{
    if !declared.declare(names.first.text.as_slice())? {
        return Ok(Some(names.first.line));
    }
    for name in names.more.as_slice() {
        if !declared.declare(name.text.as_slice())? {
            return Ok(Some(name.line));
        }
    }
    Ok(None)
}

fn declare_var<'a>(declared: &mut Declared<'a>, var: &'a Var) -> Result<Option<Line>, Memory>
    ensures unbuilt { IfOk result (λ line. line ≡ unbuilt_var declared.old var.now) }
    ensures declared { IfOk result (λ line. line ≡ None → declared.new ≡ with_names declared.old (names_in var.now)) }
{
    match &var.form {
        VarForm::Collection(_) => Ok(Some(var.at.line)),
        VarForm::Typed(spec, start) => {
            let rest = unbuilt_spec(spec).or(unbuilt_start(declared, start));
            Ok(declare_names(declared, &var.names)?.or(rest))
        }
        VarForm::Started(value) => {
            let value = unbuilt(declared, value.get());
            Ok(declare_names(declared, &var.names)?.or(value))
        }
    }
}

// Passes an item, with what it declares.
fn pass_item<'a>(declared: &mut Declared<'a>, item: &'a Item) -> Result<Option<Line>, Memory>
    ensures unbuilt { IfOk result (λ line. line ≡ unbuilt_item declared.old item.now) }
    ensures declared { IfOk result (λ line. line ≡ None → declared.new ≡ declared_after declared.old item.now) }
{
    match &item.form {
        ItemForm::Var(var) => declare_var(declared, var),
        ItemForm::Statement(statement) => Ok(unbuilt_statement(declared, false, statement)),
        ItemForm::Const(_) | ItemForm::Type(_) | ItemForm::Subprogram(_) | ItemForm::Module(_) =>
            Ok(Some(item.at.line)),
    }
}

/// The line of the first form in a tree that is not built, or want of memory.
pub fn unbuilt_program(alloc: Global, tree: &Tree) -> Result<Option<Line>, Memory>
    ensures { IfOk result (λ line. line ≡ unbuilt_program tree.now) }
{
    let mut declared = Declared::new(alloc);
    for (item, _) in tree.items.as_slice() {
        if let Some(line) = pass_item(&mut declared, item)? {
            return Ok(Some(line));
        }
    }
    Ok(None)
}
