// How many words the values of a type take.
ghost use Rattle.std.specs.Prelude.{◌≡◌, ◌≤◌, suc, List, length, map, slice_index, nat_lt, sum_by};
ghost use Rattle.tu_type_table.specs.declared.types.Row.{Row};
ghost use Rattle.tu_base.specs.Shapes.{elements, field_words, largest as largest_of, words_of as words_of_shape};
ghost use Rattle.tu_type_table.specs.Index.{IsTable};
ghost use Rattle.tu_type_table.specs.Types.{limited as limited_number, most_words, most_parts, is_wide as is_wide_form, span_of as span_at, field_shapes, variant_shape, shape_of_form, words_of_form as words_in};

use crate::spans::{bare_of, span_length, span_of};
use crate::{Field, MOST_PARTS, MOST_WORDS, Row, TypeForm, Variant};

/// A number of words, cut off one above the limit.
fn limited(words: u64) -> u64
    ensures value { result ≡ limited_number words }
    ensures bound { result ≤ suc most_words }
{
    let most: u64 = MOST_WORDS.into();
    words.min(most + 1)
}

/// The words of the type with a number, and 0 where there is none.
fn words_at(rows: &[Row], number: u32) -> u32
    ensures { result ≡ slice_index (map (λ row. row.words) rows.now) number }
{
    match rows.get(number as usize) {
        Some(row) => row.words,
        None => 0,
    }
}

/// How many elements an array has, cut off as words are.
fn elements(rows: &[Row], indexes: &[u32]) -> u64
    requires { IsTable rows.now }
    ensures value { result ≡ limited_number (elements (map (span_at rows.now) indexes.now)) }
    ensures bound { result ≤ suc most_words }
{
    let mut product = 1;
    for index in indexes {
        let length: u64 = span_length(span_of(rows, *index)).into();
        product = limited(product * length);
    }
    product
}

/// The words of fields, cut off.
fn field_words(rows: &[Row], fields: &[Field]) -> u64
    requires { IsTable rows.now }
    ensures value { result ≡ limited_number (field_words (map (λ row. row.words) rows.now) (field_shapes rows.now fields.now)) }
    ensures bound { result ≤ suc most_words }
{
    let mut sum = 0;
    for field in fields {
        let words: u64 = words_at(rows, bare_of(rows, field.type_number)).into();
        sum = limited(sum + words);
    }
    sum
}

/// The words of the largest variant, cut off.
fn largest(rows: &[Row], variants: &[Variant]) -> u64
    requires { IsTable rows.now }
    ensures value { result ≡ limited_number (largest_of (map (λ row. row.words) rows.now) (map (variant_shape rows.now) variants.now)) }
    ensures bound { result ≤ suc most_words }
{
    let mut most = 0;
    for variant in variants {
        most = field_words(rows, variant.fields.as_slice()).max(most);
    }
    most
}

#[tactic(auto, using(crate::proofs::CutOff::times_cut))]
/// The words of a type, cut off.
fn words_of(rows: &[Row], form: &TypeForm) -> u64
    requires { IsTable rows.now }
    ensures value { result ≡ limited_number (words_of_shape (map (λ row. row.words) rows.now) (shape_of_form rows.now form.now)) }
    ensures bound { result ≤ suc most_words }
{
    match form {
        TypeForm::Int
        | TypeForm::Boolean
        | TypeForm::Subrange { .. }
        | TypeForm::Enumeration { .. }
        | TypeForm::Opaque { .. } => 1,
        TypeForm::String { most } => {
            let most: u64 = (*most).into();
            limited(1 + (most + 3) / 4)
        }
        TypeForm::SetOf { base } => {
            let members: u64 = span_length(span_of(rows, *base)).into();
            limited(1 + (members + 31) / 32)
        }
        TypeForm::PointerTo { .. } => 2,
        TypeForm::ArrayOf { indexes, component } => {
            let each: u64 = words_at(rows, bare_of(rows, *component)).into();
            limited(elements(rows, indexes.as_slice()) * each)
        }
        TypeForm::Record { fields, .. } => field_words(rows, fields.as_slice()),
        TypeForm::Union { variants, .. } => limited(1 + largest(rows, variants.as_slice())),
    }
}

/// Whether variants have too many labels.
fn has_many_labels(variants: &[Variant]) -> bool
    ensures { result ≡ nat_lt most_parts (sum_by (λ v. length v.labels) variants.now) }
{
    let mut left = MOST_PARTS as usize;
    for variant in variants {
        if variant.labels.len() > left {
            return true;
        }
        left -= variant.labels.len();
    }
    false
}

/// Whether a list of a type's parts is too long.
fn is_wide(form: &TypeForm) -> bool
    ensures { (types : List Row) → result ≡ is_wide_form types form.now }
{
    match form {
        TypeForm::ArrayOf { indexes, .. } => indexes.len() > MOST_PARTS as usize,
        TypeForm::Union { variants, .. } => has_many_labels(variants.as_slice()),
        TypeForm::Int
        | TypeForm::Boolean
        | TypeForm::Subrange { .. }
        | TypeForm::Enumeration { .. }
        | TypeForm::String { .. }
        | TypeForm::SetOf { .. }
        | TypeForm::PointerTo { .. }
        | TypeForm::Record { .. }
        | TypeForm::Opaque { .. } => false,
    }
}

/// The words of a type, where those of the types in it are known: one above the limit where it
/// has more, or is too wide.
pub fn words_of_form(rows: &[Row], form: &TypeForm) -> u32
    requires { IsTable rows.now }
    ensures { result ≡ words_in rows.now form.now }
{
    if is_wide(form) {
        MOST_WORDS + 1
    } else {
        words_of(rows, form) as u32
    }
}
