// What a form of an expression adds by itself, without its parts.
ghost use Rattle.std.specs.Prelude.{◌≡◌};
ghost use Rattle.tu_core.specs.Nodes.{scalar_nodes as scalar_nodes_of, text_nodes as text_nodes_of, set_nodes as set_nodes_of, pointer_nodes as pointer_nodes_of, spot_nodes as spot_nodes_of, path_nodes as path_nodes_of};
ghost use Rattle.tu_core.specs.Rooms.{above_two as above_two_of};
ghost use Rattle.tu_room_parts.specs.Capped.{capped};
ghost use Rattle.tu_room_parts.specs.Counts.{known_result as known_result_of, known_text as known_text_of, known_set as known_set_of, known_path as known_path_of, where_nodes as where_nodes_of, text_count_of, set_count_of, path_count_of};

use crate::Count;
use crate::capped::{cut_off, times};
use crate::shapes::set_words;
use tu_base::Numbers;
use tu_core_expressions::{
    Call, Path, Pointer, PointerForm, Root, Scalar, ScalarForm, Set, SetForm, Spot, SpotForm, Text,
    TextForm,
};

/// The words of the longest text.
const LONGEST_TEXT: u64 = 65;

/// A number where nodes are counted, and else 0.
pub fn where_nodes(count: &Count, nodes: u64) -> u64
    ensures { result ≡ where_nodes_of count.now nodes }
{
    match count {
        Count::Nodes => cut_off(nodes),
        Count::Results(_) => 0,
    }
}

/// The nodes of an expression by itself.
pub fn scalar_nodes(e: &Scalar) -> u64
    ensures { result ≡ scalar_nodes_of e.now }
{
    match &e.form {
        ScalarForm::Literal(_) => 1,
        ScalarForm::Use(_) => 0,
        ScalarForm::Prefixed(operators, _) => operators.len() as u64,
        ScalarForm::Chain(_, _) => 0,
        ScalarForm::CompareTexts(_, _, _) => 1,
        ScalarForm::CompareSets(_, _, _, _) => 1,
        ScalarForm::ComparePointers { .. } => 1,
        ScalarForm::Member { .. } => 1,
        ScalarForm::Length(_) => 1,
        ScalarForm::PlaceIn(_, _) => 1,
        ScalarForm::ByteOf(_) => 1,
        ScalarForm::TextInt(_) => 1,
        ScalarForm::Bound { .. } => 1,
        ScalarForm::AtEnd { .. } => 1,
        ScalarForm::CallScalar(_) => 1,
    }
}

fn text_nodes(e: &Text) -> u64
    ensures { result ≡ text_nodes_of e.now }
{
    match &e.form {
        TextForm::Written(_) => 1,
        TextForm::UseText(_) => 0,
        TextForm::Joined(_, _) => 0,
        TextForm::Cut(_, _) => 0,
        TextForm::Character(_) => 1,
        TextForm::IntText { .. } => 1,
        TextForm::Repeat(_, _) => 1,
        TextForm::CallText(_) => 1,
    }
}

fn set_nodes(e: &Set) -> u64
    ensures { result ≡ set_nodes_of e.now }
{
    match &e.form {
        SetForm::SetOf(_, _) => 1,
        SetForm::FullSet(_) => 1,
        SetForm::UseSet(_) => 0,
        SetForm::Combined(_, _, _) => 0,
        SetForm::CallSet(_) => 1,
    }
}

/// The nodes of a pointer by itself.
pub fn pointer_nodes(e: &Pointer) -> u64
    ensures { result ≡ pointer_nodes_of e.now }
{
    match &e.form {
        PointerForm::Nil { .. } => 2,
        PointerForm::UsePointer(_) => 0,
        PointerForm::CallPointer(_) => 1,
    }
}

/// The nodes of a place in a text by itself.
pub fn spot_nodes(i: &Spot) -> u64
    ensures { result ≡ spot_nodes_of i.now }
{
    match &i.form {
        SpotForm::Exactly(_) => 0,
        SpotForm::Last => 1,
        SpotForm::BeforeLast(_) => 2,
    }
}

fn path_nodes(p: &Path) -> u64
    ensures { result ≡ path_nodes_of p.now }
{
    match &p.root {
        Root::Name(_) => 1,
        Root::OpenItem { .. } => 1,
        Root::Element { .. } => 2,
        Root::ResultOf { .. } => 1,
    }
}

/// A number of words, or 0 where they are two or less.
pub fn above_two(words: u64) -> u64
    ensures { result ≡ above_two_of words }
{
    if words > 2 { words } else { 0 }
}

fn known_result(known: &Numbers, call: &Call) -> u64
    ensures { result ≡ known_result_of known.now call.now }
{
    match known.as_slice().get(call.callee as usize) {
        None => 0,
        Some(words) => *words,
    }
}

#[tactic(auto, using(crate::proofs::Lengths::count_texts, crate::proofs::Lengths::count_cuts))]
fn known_text(known: &Numbers, e: &Text) -> u64
    ensures { result ≡ capped (known_text_of known.now e.now) }
{
    match &e.form {
        TextForm::Written(_) => 0,
        TextForm::UseText(_) => 0,
        TextForm::Joined(_, more) => times(LONGEST_TEXT, more.len() as u64),
        TextForm::Cut(_, cuts) => times(LONGEST_TEXT, cuts.len() as u64),
        TextForm::Character(_) => LONGEST_TEXT,
        TextForm::IntText { .. } => LONGEST_TEXT,
        TextForm::Repeat(_, _) => LONGEST_TEXT,
        TextForm::CallText(call) => cut_off(known_result(known, call)),
    }
}

#[tactic(auto, using(crate::proofs::Lengths::count_sets))]
fn known_set(known: &Numbers, e: &Set) -> u64
    ensures { result ≡ capped (known_set_of known.now e.now) }
{
    match &e.form {
        SetForm::SetOf(base, _) => cut_off(above_two(set_words(base.members))),
        SetForm::FullSet(base) => cut_off(above_two(set_words(base.members))),
        SetForm::UseSet(_) => 0,
        SetForm::Combined(base, _, more) => {
            times(above_two(set_words(base.members)), more.len() as u64)
        }
        SetForm::CallSet(call) => cut_off(known_result(known, call)),
    }
}

fn known_path(known: &Numbers, p: &Path) -> u64
    ensures { result ≡ capped (known_path_of known.now p.now) }
{
    match &p.root {
        Root::Name(_) => 0,
        Root::OpenItem { .. } => 0,
        Root::Element { .. } => 0,
        Root::ResultOf { call, .. } => cut_off(known_result(known, call)),
    }
}

/// What a text adds by itself.
pub fn own_text(count: &Count, e: &Text) -> u64
    ensures { result ≡ text_count_of count.now e.now }
{
    match count {
        Count::Nodes => cut_off(text_nodes(e)),
        Count::Results(known) => known_text(known, e),
    }
}

/// What a set adds by itself.
pub fn own_set(count: &Count, e: &Set) -> u64
    ensures { result ≡ set_count_of count.now e.now }
{
    match count {
        Count::Nodes => cut_off(set_nodes(e)),
        Count::Results(known) => known_set(known, e),
    }
}

/// What a place adds by itself.
pub fn own_path(count: &Count, p: &Path) -> u64
    ensures { result ≡ path_count_of count.now p.now }
{
    match count {
        Count::Nodes => cut_off(path_nodes(p)),
        Count::Results(known) => known_path(known, p),
    }
}
