// Types and names.
ghost use Rattle.std.specs.Prelude.{IfOk};
ghost use Rattle.tu_tree.specs.TypeViews.{array_view, base_view, member_view, tag_view};
ghost use Rattle.tu_flatten_parts.specs.Writes.{Writes};

use crate::expressions::{write_expr, write_exprs};
use crate::pieces::Pieces;
use sqlite_items::Items;
use tu_base::Memory;
use tu_tree::{
    Array, Base, BaseForm, Class, Field, Index, IndexForm, Leaf, Name, Names, Range, RangeForm,
    Spec, StringSize, Variant,
};

fn write_member(name: &Option<Leaf>, out: &mut Pieces) -> Result<(), Memory>
    ensures { IfOk result (λ _. Writes (member_view name.now) out.old out.new) }
{
    match name {
        Some(name) => {
            out.word(Class::SignDot)?;
            out.name(name)
        }
        None => Ok(()),
    }
}

fn write_name(name: &Name, out: &mut Pieces) -> Result<(), Memory>
    ensures { IfOk result (λ _. Writes name.now out.old out.new) }
{
    out.name(&name.first)?;
    write_member(&name.second, out)?;
    Ok(())
}

/// Adds names.
pub fn write_names(names: &Names, out: &mut Pieces) -> Result<(), Memory>
    ensures { IfOk result (λ _. Writes names.now out.old out.new) }
{
    out.name(&names.first)?;
    for x in names.more.as_slice() {
        out.word(Class::SignComma)?;
        out.name(x)?;
    }
    Ok(())
}

/// Adds a range.
pub fn write_range(range: &Range, out: &mut Pieces) -> Result<(), Memory>
    ensures { IfOk result (λ _. Writes range.now out.old out.new) }
{
    match &range.form {
        RangeForm::Bounds(from, to) => {
            write_expr(from.get(), out)?;
            out.word(Class::SignRange)?;
            write_expr(to.get(), out)
        }
        RangeForm::Named(name) => write_name(name, out),
    }
}

fn write_index(index: &Index, out: &mut Pieces) -> Result<(), Memory>
    ensures { IfOk result (λ _. Writes index.now out.old out.new) }
{
    match &index.form {
        IndexForm::Bounds(from, to) => {
            write_expr(from.get(), out)?;
            out.word(Class::SignRange)?;
            write_expr(to.get(), out)
        }
        IndexForm::Open(from, _) => {
            write_expr(from.get(), out)?;
            out.word(Class::SignRange)?;
            out.word(Class::SignStar)
        }
        IndexForm::Named(name) => write_name(name, out),
    }
}

fn write_array(array: &Array, out: &mut Pieces) -> Result<(), Memory>
    ensures { IfOk result (λ _. Writes (array_view array.now) out.old out.new) }
{
    out.word(Class::WordArray)?;
    write_index(&array.first, out)?;
    for x in array.more.as_slice() {
        out.word(Class::SignComma)?;
        write_index(x, out)?;
    }
    out.word(Class::WordOf)?;
    Ok(())
}

fn write_string(size: &StringSize, out: &mut Pieces) -> Result<(), Memory>
    ensures { IfOk result (λ _. Writes (base_view (BaseForm.String size.now)) out.old out.new) }
{
    out.word(Class::WordString)?;
    match size {
        StringSize::Whole => Ok(()),
        StringSize::Most(most) => {
            out.word(Class::SignLeftBracket)?;
            write_expr(most.get(), out)?;
            out.word(Class::SignRightBracket)
        }
        StringSize::Open(_) => {
            out.word(Class::SignLeftBracket)?;
            out.word(Class::SignStar)?;
            out.word(Class::SignRightBracket)
        }
    }
}

fn write_enum(names: &Names, out: &mut Pieces) -> Result<(), Memory>
    ensures { IfOk result (λ _. Writes (base_view (BaseForm.Enum names.now)) out.old out.new) }
{
    out.word(Class::WordEnum)?;
    out.word(Class::SignLeftBracket)?;
    write_names(names, out)?;
    out.word(Class::SignRightBracket)?;
    Ok(())
}

fn write_set(range: &Range, out: &mut Pieces) -> Result<(), Memory>
    ensures { IfOk result (λ _. Writes (base_view (BaseForm.Set range.now)) out.old out.new) }
{
    out.word(Class::WordSet)?;
    out.word(Class::WordOf)?;
    write_range(range, out)?;
    Ok(())
}

fn write_pointer(name: &Name, out: &mut Pieces) -> Result<(), Memory>
    ensures { IfOk result (λ _. Writes (base_view (BaseForm.Pointer name.now)) out.old out.new) }
{
    out.word(Class::WordPointer)?;
    out.word(Class::WordTo)?;
    write_name(name, out)?;
    Ok(())
}

/// Adds the name of a tag or result, where there is one.
pub fn write_tag(tag: &Option<Leaf>, out: &mut Pieces) -> Result<(), Memory>
    ensures { IfOk result (λ _. Writes (tag_view tag.now) out.old out.new) }
{
    match tag {
        Some(name) => out.name(name),
        None => Ok(()),
    }
}

/// Adds a type.
#[cycle(spec)]
pub fn write_spec(spec: &Spec, out: &mut Pieces) -> Result<(), Memory>
    ensures { IfOk result (λ _. Writes spec.now out.old out.new) }
{
    for x in spec.arrays.as_slice() {
        write_array(x, out)?;
    }
    write_base(&spec.base, out)?;
    Ok(())
}

#[cycle(spec)]
fn write_base(base: &Base, out: &mut Pieces) -> Result<(), Memory>
    ensures { IfOk result (λ _. Writes base.now out.old out.new) }
{
    match &base.form {
        BaseForm::Int => out.word(Class::WordInt),
        BaseForm::Boolean => out.word(Class::WordBoolean),
        BaseForm::String(size) => write_string(size, out),
        BaseForm::Range(range) => write_range(range, out),
        BaseForm::Enum(names) => write_enum(names, out),
        BaseForm::Set(range) => write_set(range, out),
        BaseForm::Pointer(name) => write_pointer(name, out),
        BaseForm::Record(first, more) => {
            out.word(Class::WordRecord)?;
            write_field(first.get(), out)?;
            for x in more.as_slice() {
                write_field(x, out)?;
            }
            out.end(Class::WordRecord)?;
            Ok(())
        }
        BaseForm::Union {
            tag,
            range,
            variants,
        } => {
            out.word(Class::WordUnion)?;
            write_tag(tag, out)?;
            out.word(Class::SignColon)?;
            write_range(range, out)?;
            out.word(Class::WordOf)?;
            for x in variants.as_slice() {
                write_variant(x, out)?;
            }
            out.end(Class::WordUnion)?;
            Ok(())
        }
    }
}

#[cycle(spec)]
fn write_field(field: &Field, out: &mut Pieces) -> Result<(), Memory>
    ensures { IfOk result (λ _. Writes field.now out.old out.new) }
{
    write_names(&field.names, out)?;
    out.word(Class::SignColon)?;
    write_spec(&field.spec, out)?;
    out.flag(Class::SignSemicolon, field.semicolon)?;
    Ok(())
}

#[cycle(spec)]
fn write_variant(variant: &Variant, out: &mut Pieces) -> Result<(), Memory>
    ensures { IfOk result (λ _. Writes variant.now out.old out.new) }
{
    out.word(Class::WordLabel)?;
    write_exprs(&variant.labels, out)?;
    out.word(Class::SignColon)?;
    for x in variant.fields.as_slice() {
        write_field(x, out)?;
    }
    Ok(())
}
