// Programs and modules.
ghost use Rattle.std.specs.Prelude.{[], ◌∷◌, OnOk};
ghost use Rattle.grammar.specs.Description.{rule};
ghost use Rattle.tu_token.specs.Rules.{r-item};
ghost use Rattle.tu_expr.specs.Leaves.{leaf_view};
ghost use Rattle.tu_tree.specs.Parts.{sequel};
ghost use Rattle.tu_tree.specs.ProgramViews.{module_part, module_part_view};
ghost use Rattle.tu_scope_parts.specs.Adds.{Adds, Extends};
ghost use Rattle.tu_scope_parts.specs.Walk.{item_awaited, items_awaited, module_declared, part_awaited, parts_awaited};

use crate::blocks::walk_statement;
use crate::subprograms::{end_named, walk_subprogram};
use sqlite_items::Items;
use tu_base::Memory;
use tu_scope_parts::{
    Events, await_body, list_any_export, list_any_import, name, walk_const, walk_invariant,
    walk_type, walk_var,
};
use tu_scope_rules::{Context, Declaration, Entity, Event, Visibility};
use tu_token::Class;
use tu_tree::{Item, ItemForm, Leaf, Module, ModulePart, Tree};

fn walk_module_part<'a>(part: &'a ModulePart, out: &mut Events<'a>) -> Result<(), Memory>
    ensures { OnOk result (Adds Context.Elsewhere (module_part_view part.now) out.old out.new) }
{
    match part {
        ModulePart::Const(part) => walk_const(part, out),
        ModulePart::Var(part) => walk_var(part, out),
        ModulePart::Type(part) => walk_type(part, out),
        ModulePart::Subprogram(part) => walk_subprogram(part.get(), out),
        ModulePart::Statement(part) => walk_statement(part, out),
        ModulePart::Invariant(part) => walk_invariant(part, out),
    }
}

fn walk_parts<'a>(parts: &'a Items<(ModulePart, bool)>, out: &mut Events<'a>) -> Result<(), Memory>
    ensures { OnOk result (Adds Context.Elsewhere (sequel module_part module_part_view parts.now) out.old out.new) }
{
    for x in parts.as_slice() {
        walk_module_part(&x.0, out)?;
    }
    Ok(())
}

fn await_part<'a>(part: &'a ModulePart, out: &mut Events<'a>) -> Result<(), Memory>
    ensures { OnOk result (Extends (part_awaited (module_part_view part.now)) out.old out.new) }
{
    match part {
        ModulePart::Subprogram(part) => await_body(part.get(), out),
        ModulePart::Const(_)
        | ModulePart::Var(_)
        | ModulePart::Type(_)
        | ModulePart::Statement(_)
        | ModulePart::Invariant(_) => Ok(()),
    }
}

fn await_parts<'a>(parts: &'a Items<(ModulePart, bool)>, out: &mut Events<'a>) -> Result<(), Memory>
    ensures { OnOk result (Extends (parts_awaited (sequel module_part module_part_view parts.now)) out.old out.new) }
{
    for x in parts.as_slice() {
        await_part(&x.0, out)?;
    }
    Ok(())
}

fn declare_module<'a>(scope: u32, leaf: &'a Leaf, out: &mut Events<'a>) -> Result<(), Memory>
    ensures { OnOk result (Extends (module_declared scope (leaf_view Class.Name leaf.now) ∷ []) out.old out.new) }
{
    let declaration = Declaration {
        number: leaf.start,
        entity: Entity::Module(scope),
    };
    out.push(Event::Declare(name(leaf), declaration))
}

fn walk_module<'a>(declared: &'a Module, out: &mut Events<'a>) -> Result<(), Memory>
    ensures { OnOk result (Adds Context.Elsewhere declared.now out.old out.new) }
{
    list_any_import(declared.at.number, &declared.import, out)?;
    out.push(Event::Open(declared.at.number, Visibility::Listed))?;
    walk_parts(&declared.parts, out)?;
    await_parts(&declared.parts, out)?;
    list_any_export(&declared.export, out)?;
    end_named(&declared.name, &declared.ending, out)?;
    declare_module(declared.at.number, &declared.name, out)?;
    Ok(())
}

fn walk_item<'a>(item: &'a Item, out: &mut Events<'a>) -> Result<(), Memory>
    ensures { OnOk result (Adds Context.Elsewhere item.now out.old out.new) }
{
    match &item.form {
        ItemForm::Const(part) => walk_const(part, out),
        ItemForm::Var(part) => walk_var(part, out),
        ItemForm::Type(part) => walk_type(part, out),
        ItemForm::Subprogram(part) => walk_subprogram(part.get(), out),
        ItemForm::Module(part) => walk_module(part.get(), out),
        ItemForm::Statement(part) => walk_statement(part, out),
    }
}

fn walk_items<'a>(items: &'a Items<(Item, bool)>, out: &mut Events<'a>) -> Result<(), Memory>
    ensures { OnOk result (Adds Context.Elsewhere (sequel (rule r-item) (λ x. x) items.now) out.old out.new) }
{
    for x in items.as_slice() {
        walk_item(&x.0, out)?;
    }
    Ok(())
}

fn await_item<'a>(item: &'a Item, out: &mut Events<'a>) -> Result<(), Memory>
    ensures { OnOk result (Extends (item_awaited item.now) out.old out.new) }
{
    match &item.form {
        ItemForm::Subprogram(part) => await_body(part.get(), out),
        ItemForm::Const(_)
        | ItemForm::Var(_)
        | ItemForm::Type(_)
        | ItemForm::Module(_)
        | ItemForm::Statement(_) => Ok(()),
    }
}

fn await_items<'a>(items: &'a Items<(Item, bool)>, out: &mut Events<'a>) -> Result<(), Memory>
    ensures { OnOk result (Extends (items_awaited (sequel (rule r-item) (λ x. x) items.now)) out.old out.new) }
{
    for x in items.as_slice() {
        await_item(&x.0, out)?;
    }
    Ok(())
}

/// Adds the events of a program.
pub fn walk_tree<'a>(tree: &'a Tree, out: &mut Events<'a>) -> Result<(), Memory>
    ensures { OnOk result (Adds Context.Elsewhere tree.now out.old out.new) }
{
    walk_items(&tree.items, out)?;
    await_items(&tree.items, out)?;
    Ok(())
}
