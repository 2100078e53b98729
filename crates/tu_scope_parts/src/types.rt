// Types.
ghost use Rattle.std.specs.Prelude.{OnOk};
ghost use Rattle.tu_token.specs.Rules.{r-expr};
ghost use Rattle.tu_expr.specs.Parts.{any_listing, listing};
ghost use Rattle.tu_tree.specs.TypeViews.{array_view, size_view};
ghost use Rattle.tu_scope_parts.specs.Adds.{Adds};

use crate::events::Events;
use crate::expressions::walk_expr;
use crate::names::{NameRole, list_any_name, list_names, use_name};
use sqlite_items::Items;
use tu_base::Memory;
use tu_scope_rules::Context;
use tu_tree::{
    Array, Base, BaseForm, Expr, Field, Index, IndexForm, Range, RangeForm, Spec, StringSize,
    Variant,
};

/// Adds the events of a range.
pub fn walk_range<'a>(range: &'a Range, out: &mut Events<'a>) -> Result<(), Memory>
    ensures { OnOk result (Adds Context.Elsewhere range.now out.old out.new) }
{
    match &range.form {
        RangeForm::Bounds(from, to) => {
            walk_expr(Context::Elsewhere, from.get(), out)?;
            walk_expr(Context::Elsewhere, to.get(), out)
        }
        RangeForm::Named(name) => use_name(Context::Elsewhere, name, out),
    }
}

fn walk_index<'a>(index: &'a Index, out: &mut Events<'a>) -> Result<(), Memory>
    ensures { OnOk result (Adds Context.Elsewhere index.now out.old out.new) }
{
    match &index.form {
        IndexForm::Bounds(from, to) => {
            walk_expr(Context::Elsewhere, from.get(), out)?;
            walk_expr(Context::Elsewhere, to.get(), out)
        }
        IndexForm::Open(from, _) => walk_expr(Context::Elsewhere, from.get(), out),
        IndexForm::Named(name) => use_name(Context::Elsewhere, name, out),
    }
}

fn walk_array<'a>(array: &'a Array, out: &mut Events<'a>) -> Result<(), Memory>
    ensures { OnOk result (Adds Context.Elsewhere (array_view array.now) out.old out.new) }
{
    walk_index(&array.first, out)?;
    for x in array.more.as_slice() {
        walk_index(x, out)?;
    }
    Ok(())
}

fn walk_size<'a>(size: &'a StringSize, out: &mut Events<'a>) -> Result<(), Memory>
    ensures { OnOk result (Adds Context.Elsewhere (size_view size.now) out.old out.new) }
{
    match size {
        StringSize::Whole | StringSize::Open(_) => Ok(()),
        StringSize::Most(most) => walk_expr(Context::Elsewhere, most.get(), out),
    }
}

/// Adds the events of labels.
pub fn walk_labels<'a>(
    first: &'a Expr,
    more: &'a Items<Expr>,
    out: &mut Events<'a>,
) -> Result<(), Memory>
    ensures { OnOk result (Adds Context.Elsewhere (listing r-expr first.now more.now) out.old out.new) }
{
    walk_expr(Context::Elsewhere, first, out)?;
    for x in more.as_slice() {
        walk_expr(Context::Elsewhere, x, out)?;
    }
    Ok(())
}

fn walk_any_labels<'a>(labels: &'a Items<Expr>, out: &mut Events<'a>) -> Result<(), Memory>
    ensures { OnOk result (Adds Context.Elsewhere (any_listing r-expr labels.now) out.old out.new) }
{
    for x in labels.as_slice() {
        walk_expr(Context::Elsewhere, x, out)?;
    }
    Ok(())
}

/// Adds the events of a type.
#[cycle(spec)]
pub fn walk_spec<'a>(spec: &'a Spec, out: &mut Events<'a>) -> Result<(), Memory>
    ensures { OnOk result (Adds Context.Elsewhere spec.now out.old out.new) }
{
    for x in spec.arrays.as_slice() {
        walk_array(x, out)?;
    }
    walk_base(&spec.base, out)?;
    Ok(())
}

#[cycle(spec)]
fn walk_base<'a>(base: &'a Base, out: &mut Events<'a>) -> Result<(), Memory>
    ensures { OnOk result (Adds Context.Elsewhere base.now out.old out.new) }
{
    match &base.form {
        BaseForm::Int => Ok(()),
        BaseForm::Boolean => Ok(()),
        BaseForm::String(size) => {
            walk_size(size, out)?;
            Ok(())
        }
        BaseForm::Range(range) => {
            walk_range(range, out)?;
            Ok(())
        }
        BaseForm::Enum(names) => {
            out.open(base.at.number)?;
            list_names(NameRole::Member, names, out)?;
            out.close()?;
            Ok(())
        }
        BaseForm::Set(range) => {
            walk_range(range, out)?;
            Ok(())
        }
        BaseForm::Pointer(name) => {
            use_name(Context::AfterPointer, name, out)?;
            Ok(())
        }
        BaseForm::Record(first, more) => {
            out.open(base.at.number)?;
            walk_field(first.get(), out)?;
            for x in more.as_slice() {
                walk_field(x, out)?;
            }
            out.close()?;
            Ok(())
        }
        BaseForm::Union {
            tag,
            range,
            variants,
        } => {
            out.open(base.at.number)?;
            list_any_name(NameRole::Member, tag, out)?;
            walk_range(range, out)?;
            for x in variants.as_slice() {
                walk_variant(x, out)?;
            }
            out.close()?;
            Ok(())
        }
    }
}

#[cycle(spec)]
fn walk_field<'a>(field: &'a Field, out: &mut Events<'a>) -> Result<(), Memory>
    ensures { OnOk result (Adds Context.Elsewhere field.now out.old out.new) }
{
    walk_spec(&field.spec, out)?;
    list_names(NameRole::Member, &field.names, out)?;
    Ok(())
}

#[cycle(spec)]
fn walk_variant<'a>(variant: &'a Variant, out: &mut Events<'a>) -> Result<(), Memory>
    ensures { OnOk result (Adds Context.Elsewhere variant.now out.old out.new) }
{
    walk_any_labels(&variant.labels, out)?;
    for x in variant.fields.as_slice() {
        walk_field(x, out)?;
    }
    Ok(())
}
