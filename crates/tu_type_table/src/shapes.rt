// The shapes of types.
ghost use Rattle.std.specs.Prelude.{◌≡◌, map, IfOk};
ghost use Rattle.tu_type_table.specs.Index.{IsTable, IsSmall};
ghost use Rattle.tu_type_table.specs.Types.{span_of as span_at, field_shapes, variant_shape, shape_of_form, shapes_of};

use crate::spans::{bare_of, row_at, span_length, span_of, span_of_form};
use crate::{Field, Row, TypeForm, Variant};
use sqlite_items::Items;
use std::alloc::Global;
use tu_base::{Memory, Shape, Span, Variant as ShapeVariant};

fn spans_of(alloc: Global, rows: &[Row], types: &[u32]) -> Result<Items<Span>, Memory>
    requires { IsTable rows.now }
    ensures { IfOk result (λ all. all ≡ map (span_at rows.now) types.now) }
{
    let mut all = Items::new(alloc);
    for one in types {
        all.push(span_of(rows, *one))?;
    }
    Ok(all)
}

fn field_shapes(alloc: Global, rows: &[Row], fields: &[Field]) -> Result<Items<u32>, Memory>
    requires { IsTable rows.now }
    ensures { IfOk result (λ all. all ≡ field_shapes rows.now fields.now) }
{
    let mut all = Items::new(alloc);
    for field in fields {
        all.push(bare_of(rows, field.type_number))?;
    }
    Ok(all)
}

fn variant_shape(alloc: Global, rows: &[Row], variant: &Variant) -> Result<ShapeVariant, Memory>
    requires { IsTable rows.now }
    ensures { IfOk result (λ shape. shape ≡ variant_shape rows.now variant.now) }
{
    let labels = Items::from_slice(alloc, variant.labels.as_slice())?;
    let fields = field_shapes(alloc, rows, variant.fields.as_slice())?;
    Ok(ShapeVariant { labels, fields })
}

fn variant_shapes(
    alloc: Global,
    rows: &[Row],
    variants: &[Variant],
) -> Result<Items<ShapeVariant>, Memory>
    requires { IsTable rows.now }
    ensures { IfOk result (λ all. all ≡ map (variant_shape rows.now) variants.now) }
{
    let mut all = Items::new(alloc);
    for variant in variants {
        let shape = variant_shape(alloc, rows, variant)?;
        all.push(shape)?;
    }
    Ok(all)
}

/// The shape of a type that is not opaque.
fn shape_of_form(alloc: Global, rows: &[Row], form: &TypeForm) -> Result<Shape, Memory>
    requires table { IsTable rows.now }
    requires small { IsSmall form.now }
    ensures { IfOk result (λ shape. shape ≡ shape_of_form rows.now form.now) }
{
    match form {
        TypeForm::String { most } => Ok(Shape::Text { most: *most }),
        TypeForm::SetOf { base } => {
            let span = span_of(rows, *base);
            Ok(Shape::Set {
                low: span.low,
                members: span_length(span),
            })
        }
        TypeForm::PointerTo { collection } => Ok(Shape::Pointer {
            collection: *collection,
        }),
        TypeForm::ArrayOf { indexes, component } => Ok(Shape::Array {
            indexes: spans_of(alloc, rows, indexes.as_slice())?,
            component: bare_of(rows, *component),
        }),
        TypeForm::Record { fields, .. } => Ok(Shape::Record {
            fields: field_shapes(alloc, rows, fields.as_slice())?,
        }),
        TypeForm::Union { tag, variants, .. } => Ok(Shape::Union {
            tag: bare_of(rows, *tag),
            variants: variant_shapes(alloc, rows, variants.as_slice())?,
        }),
        TypeForm::Int
        | TypeForm::Boolean
        | TypeForm::Subrange { .. }
        | TypeForm::Enumeration { .. }
        | TypeForm::Opaque { .. } => Ok(Shape::Scalar(span_of_form(form))),
    }
}

/// The shapes of types, each seen through.
pub fn shapes_of(alloc: Global, rows: &[Row]) -> Result<Items<Shape>, Memory>
    requires { IsTable rows.now }
    ensures { IfOk result (λ all. all ≡ shapes_of rows.now) }
{
    let mut all = Items::new(alloc);
    for row in rows {
        let shape = shape_of_form(alloc, rows, &row_at(rows, row.bare).form)?;
        all.push(shape)?;
    }
    Ok(all)
}
