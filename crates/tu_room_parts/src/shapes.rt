// The words of shapes.
ghost use Rattle.std.specs.Prelude.{◌≡◌, IfOk, map, slice_index, sum_by};
ghost use Rattle.tu_base.specs.Shapes.{span_length as span_length_of, elements as elements_of, text_words as text_words_of, set_words as set_words_of, field_words as field_words_of, largest as largest_of, words_of, all_words};
ghost use Rattle.tu_room_parts.specs.Capped.{capped};

use crate::capped::{cut_off, plus, times};
use std::alloc::Global;
use tu_base::{Memory, Numbers, Shape, Span, Variant};

fn span_length(s: &Span) -> u64
    ensures { result ≡ span_length_of s.now }
{
    if s.high < s.low {
        0
    } else {
        s.high.abs_diff(s.low) as u64 + 1
    }
}

fn elements(indexes: &[Span]) -> u64
    ensures { result ≡ capped (elements_of indexes.now) }
{
    let mut product = 1;
    for s in indexes {
        product = times(product, span_length(s));
    }
    product
}

/// The words of a text of at most so many bytes.
pub fn text_words(most: u32) -> u64
    ensures { result ≡ text_words_of most }
{
    1 + (most as u64 + 3) / 4
}

/// The words of a set of so many members.
pub fn set_words(members: u32) -> u64
    ensures { result ≡ set_words_of members }
{
    1 + (members as u64 + 31) / 32
}

/// The words of a shape by its number, where those of all shapes are known.
#[tactic(auto, using(crate::proofs::Known::is_there, crate::proofs::Known::is_past))]
pub fn known_words(known: &Numbers, shape: u32) -> u64
    ensures { result ≡ slice_index known.now shape }
{
    match known.as_slice().get(shape as usize) {
        None => 0,
        Some(words) => *words,
    }
}

fn field_words(known: &Numbers, fields: &[u32]) -> u64
    ensures { result ≡ capped (field_words_of known.now fields.now) }
{
    let mut sum = 0;
    for field in fields {
        sum = plus(sum, known_words(known, *field));
    }
    sum
}

fn largest(known: &Numbers, variants: &[Variant]) -> u64
    ensures { result ≡ capped (largest_of known.now variants.now) }
{
    let mut most = 0;
    for v in variants {
        most = most.max(field_words(known, v.fields.as_slice()));
    }
    most
}

fn shape_words(known: &Numbers, shape: &Shape) -> u64
    ensures { result ≡ capped (words_of known.now shape.now) }
{
    match shape {
        Shape::Scalar(_) => 1,
        Shape::Text { most } => cut_off(text_words(*most)),
        Shape::Set { members, .. } => cut_off(set_words(*members)),
        Shape::Pointer { .. } => 2,
        Shape::Array { indexes, component } => {
            times(elements(indexes.as_slice()), known_words(known, *component))
        }
        Shape::Record { fields } => field_words(known, fields.as_slice()),
        Shape::Union { variants, .. } => plus(1, largest(known, variants.as_slice())),
    }
}

/// The words of each shape of a list, cut off.
pub fn words(alloc: Global, shapes: &[Shape]) -> Result<Numbers, Memory>
    ensures { IfOk result (λ words. words ≡ map capped (all_words shapes.now)) }
{
    let mut known = Numbers::make(alloc);
    for shape in shapes {
        let words = shape_words(&known, shape);
        known.add(words)?;
    }
    Ok(known)
}
