// Rows by their numbers, and the numbers that stand for the values of a scalar type.
ghost use Rattle.std.specs.Prelude.{◌≡◌, List, IsTrue};
ghost use Rattle.tu_type_table.specs.declared.types.Row.{Row};
ghost use Rattle.tu_base.specs.Scalars.{is_int};
ghost use Rattle.tu_base.specs.Shapes.{span_length};
ghost use Rattle.tu_type_table.specs.Index.{IsTable, IsSmall};
ghost use Rattle.tu_type_table.specs.Types.{row_at, bare_of, span_of_form, span_of};

use crate::{Row, TypeForm};
use tu_base::{MOST_INT, Span};

/// The type with a number, and int where there is none.
pub fn row_at(rows: &[Row], number: u32) -> &Row
    requires { IsTable rows.now }
    ensures { result.now ≡ row_at rows.now number }
{
    match rows.get(number as usize) {
        Some(row) => row,
        None => &rows[0],
    }
}

/// The number of what a type is once all opaque types are seen through.
pub fn bare_of(rows: &[Row], number: u32) -> u32
    requires { IsTable rows.now }
    ensures { result ≡ bare_of rows.now number }
{
    row_at(rows, number).bare
}

/// The numbers of a type that is not opaque.
pub fn span_of_form(form: &TypeForm) -> Span
    requires { IsSmall form.now }
    ensures value { (types : List Row) → result ≡ span_of_form types form.now }
    ensures low { IsTrue (is_int result.low) }
    ensures high { IsTrue (is_int result.high) }
{
    match form {
        TypeForm::Int => Span {
            low: -(MOST_INT as i32),
            high: MOST_INT as i32,
        },
        TypeForm::Subrange { low, high, .. } => Span {
            low: low.get(),
            high: high.get(),
        },
        TypeForm::Enumeration { values, .. } => Span {
            low: 0,
            high: values.len().saturating_sub(1) as i32,
        },
        TypeForm::Boolean
        | TypeForm::String { .. }
        | TypeForm::SetOf { .. }
        | TypeForm::PointerTo { .. }
        | TypeForm::ArrayOf { .. }
        | TypeForm::Record { .. }
        | TypeForm::Union { .. }
        | TypeForm::Opaque { .. } => Span { low: 0, high: 1 },
    }
}

/// The numbers of a type.
pub fn span_of(rows: &[Row], number: u32) -> Span
    requires { IsTable rows.now }
    ensures value { result ≡ span_of rows.now number }
    ensures low { IsTrue (is_int result.low) }
    ensures high { IsTrue (is_int result.high) }
{
    let bare = bare_of(rows, number);
    span_of_form(&row_at(rows, bare).form)
}

/// How many numbers a span of ints has.
pub fn span_length(span: Span) -> u32
    requires low { IsTrue (is_int span.low) }
    requires high { IsTrue (is_int span.high) }
    ensures { result ≡ span_length span }
{
    let low: i64 = span.low.into();
    let high: i64 = span.high.into();
    if high < low {
        0
    } else {
        (high - low + 1) as u32
    }
}
