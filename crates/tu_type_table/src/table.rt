ghost use Rattle.std.specs.Prelude.{◌≡◌, List, ◌++◌, ◌∷◌, [], ◌↔◌, IsTrue, Some, None, ◌<◌, ◌^◌, length, map, IfOk, OnOk};
ghost use Rattle.tu_type_table.specs.declared.types.Row.{Row};
ghost use Rattle.tu_type_table.specs.Index.{IsIndex, IsTable, IsSmall, key_of, number_from};
ghost use Rattle.tu_type_table.specs.declared.types.TypeForm.TheVariants.{SetOf, PointerTo, ArrayOf};
ghost use Rattle.tu_type_table.specs.Types.{row_at, bare_of, root_of, span_of, seen, base_of, found_from, own_or, words_or, entered, numbered, numbered_opaque, shapes_of, first_types, no_row};

use crate::key::key_of;
use crate::shapes::shapes_of;
use crate::spans::{row_at, span_length, span_of};
use crate::words::words_of_form;
use crate::{Row, TypeForm};
use sqlite_items::Items;
use std::alloc::Global;
use std::collections::BTreeMap;
use std::marker::Model;
use tu_base::{MOST_INT, MOST_TEXT_BYTES, Memory, Shape, Span};
use tu_core::Base;

/// The types of a program by their numbers.
#[derive(Drop)]
pub struct TypeTable {
    alloc: Global,
    rows: Vec<Row>,
    index: BTreeMap<Vec<i64>, u32>,
}

impl Model for TypeTable {
    ghost use Rattle.std.specs.Prelude.{List};
    ghost use Rattle.tu_type_table.specs.declared.types.Row.{Row};
    ghost use Rattle.tu_type_table.specs.Index.{IsIndex, IsTable};

    ghost Value = { List Row };

    ghost view = { λ t. t.rows.items };

    ghost invariant = { λ t. IsTable t.rows.items × IsIndex t.index t.rows.items };
}

/// Whether the numbers of an enumeration's values are ints.
fn is_small(form: &TypeForm) -> bool
    ensures { IsTrue result ↔ IsSmall form.now }
{
    match form {
        TypeForm::Enumeration { values, .. } => values.len() <= MOST_INT as usize,
        TypeForm::Int
        | TypeForm::Boolean
        | TypeForm::Subrange { .. }
        | TypeForm::String { .. }
        | TypeForm::SetOf { .. }
        | TypeForm::PointerTo { .. }
        | TypeForm::ArrayOf { .. }
        | TypeForm::Record { .. }
        | TypeForm::Union { .. }
        | TypeForm::Opaque { .. } => true,
    }
}

fn find(index: &BTreeMap<Vec<i64>, u32>, key: &[i64]) -> Option<u32>
    ensures { (types : List Row) → IsIndex index.now types → result ≡ number_from key.now 0 types }
{
    index.get(key).copied()
}

fn own_or(own: u32, number: Option<u32>) -> u32
    ensures { (types : List Row) → own ≡ length types → result ≡ own_or types number }
{
    match number {
        Some(number) => number,
        None => own,
    }
}

/// The words of a type: those of what it is bare, or its own.
fn words_or(rows: &[Row], form: &TypeForm, bare: Option<u32>) -> u32
    requires { IsTable rows.now }
    ensures { result ≡ words_or rows.now form.now bare }
{
    match bare {
        Some(number) => row_at(rows, number).words,
        None => words_of_form(rows, form),
    }
}

/// Puts a type that is not there behind the others.
fn add(
    rows: &mut Vec<Row>,
    index: &mut BTreeMap<Vec<i64>, u32>,
    key: Vec<i64>,
    row: Row,
) -> Result<(), Memory>
    requires tied { IsIndex index.old rows.old.items }
    requires a_table { IsTable rows.old.items }
    requires keyed { key.items ≡ key_of row.form }
    requires is_small { IsSmall row.form }
    requires is_new { number_from key.items 0 rows.old.items ≡ None }
    requires numbers { length rows.old.items < 2 ^ 32 }
    ensures kept { IsIndex index.new rows.new.items }
    ensures table { IsTable rows.new.items }
    ensures added { OnOk result (rows.new.items ≡ rows.old.items ++ row ∷ []) }
{
    let own = rows.len();
    rows.push(row)?;
    if let Ok(_) = index.insert(key, own as u32) {
        return Ok(());
    }
    rows.truncate(own);
    Err(Memory)
}

impl TypeTable {
    /// The table that every program begins with: int, boolean and string.
    pub fn new(alloc: Global) -> Result<Self, Memory>
        ensures { IfOk result (λ table. table ≡ first_types) }
    {
        let mut table = TypeTable::of_int(alloc)?;
        table.numbered(None, TypeForm::Boolean)?;
        let text = TypeForm::String {
            most: MOST_TEXT_BYTES,
        };
        table.numbered(None, text)?;
        Ok(table)
    }

    fn of_int(alloc: Global) -> Result<Self, Memory>
        ensures { IfOk result (λ table. table ≡ no_row ∷ []) }
    {
        let key = key_of(alloc, &TypeForm::Int)?;
        let mut index = BTreeMap::new(alloc);
        index.insert(key, 0)?;
        let mut rows = Vec::new(alloc);
        rows.push(Row {
            form: TypeForm::Int,
            home: None,
            inside: 0,
            bare: 0,
            words: 1,
        })?;
        Ok(TypeTable { alloc, rows, index })
    }

    /// The type with a number, and int where there is none.
    pub fn row(&self, number: u32) -> &Row
        ensures { result.now ≡ row_at self.now number }
    {
        row_at(&self.rows, number)
    }

    /// The number of what a type is once all opaque types are seen through.
    pub fn bare(&self, number: u32) -> u32
        ensures { result ≡ bare_of self.now number }
    {
        self.row(number).bare
    }

    /// The number of int for a subrange of it, of an enumeration for one of its own, and else the
    /// number itself.
    pub fn root(&self, number: u32) -> u32
        ensures { result ≡ root_of self.now number }
    {
        match &self.row(number).form {
            TypeForm::Subrange { root, .. } => *root,
            TypeForm::Int
            | TypeForm::Boolean
            | TypeForm::Enumeration { .. }
            | TypeForm::String { .. }
            | TypeForm::SetOf { .. }
            | TypeForm::PointerTo { .. }
            | TypeForm::ArrayOf { .. }
            | TypeForm::Record { .. }
            | TypeForm::Union { .. }
            | TypeForm::Opaque { .. } => number,
        }
    }

    /// The numbers that stand for the values of a scalar type.
    pub fn span(&self, number: u32) -> Span
        ensures { result ≡ span_of self.now number }
    {
        span_of(&self.rows, number)
    }

    /// The words of a type, cut off one above the limit.
    pub fn words(&self, number: u32) -> u32
        ensures { result ≡ (row_at self.now number).words }
    {
        self.row(number).words
    }

    /// What a type is at a place with a module around it.
    pub fn seen(&self, at: Option<u32>, number: u32) -> u32
        ensures { result ≡ seen self.now at number }
    {
        let row = self.row(number);
        match (row.home, at) {
            (Some(home), Some(around)) if home == around => row.inside,
            (Some(_) | None, Some(_) | None) => number,
        }
    }

    /// The numbers of a set over a type.
    pub fn base(&self, number: u32) -> Base
        ensures { result ≡ base_of self.now number }
    {
        let span = span_of(&self.rows, number);
        Base {
            low: span.low,
            members: span_length(span),
        }
    }

    /// The type of pointers to a collection, if there is one.
    pub fn pointer_type(&self, collection: u32) -> Option<u32>
        ensures { result ≡ found_from self.now (PointerTo collection) 0 self.now }
    {
        find(&self.index, &[6, collection.into()])
    }

    /// The shapes of the core, by the numbers of the types.
    pub fn shapes(&self, alloc: Global) -> Result<Items<Shape>, Memory>
        ensures { IfOk result (λ shapes. shapes ≡ shapes_of self.now) }
    {
        shapes_of(alloc, &self.rows)
    }

    /// The number of a type with what it is inside and bare, which is itself where it is not
    /// given.
    fn entered(
        &mut self,
        home: Option<u32>,
        form: TypeForm,
        inside: Option<u32>,
        bare: Option<u32>,
    ) -> Result<u32, Memory>
        ensures { IfOk result (λ n. entered self.old home form inside bare ≡ (self.new, n)) }
    {
        let key = key_of(self.alloc, &form)?;
        if let Some(number) = find(&self.index, key.as_slice()) {
            return Ok(number);
        }
        if !is_small(&form) || self.rows.len() > u32::MAX as usize {
            return Err(Memory);
        }
        let own = self.rows.len() as u32;
        let words = words_or(&self.rows, &form, bare);
        let row = Row {
            form,
            home,
            inside: own_or(own, inside),
            bare: own_or(own, bare),
            words,
        };
        add(&mut self.rows, &mut self.index, key, row)?;
        Ok(own)
    }

    /// The number of a set type.
    fn set_type(&mut self, home: Option<u32>, base: u32) -> Result<u32, Memory>
        ensures { IfOk result (λ n. numbered self.old home (SetOf base) ≡ (self.new, n)) }
    {
        let of_bare = TypeForm::SetOf {
            base: self.bare(base),
        };
        let of_seen = TypeForm::SetOf {
            base: self.seen(home, base),
        };
        let bare = self.entered(home, of_bare, None, None)?;
        let inside = self.entered(home, of_seen, None, Some(bare))?;
        self.entered(home, TypeForm::SetOf { base }, Some(inside), Some(bare))
    }

    fn bare_types(&self, types: &[u32]) -> Result<Items<u32>, Memory>
        ensures { IfOk result (λ all. all ≡ map (bare_of self.now) types.now) }
    {
        let mut all = Items::new(self.alloc);
        for one in types {
            all.push(self.bare(*one))?;
        }
        Ok(all)
    }

    fn seen_types(&self, home: Option<u32>, types: &[u32]) -> Result<Items<u32>, Memory>
        ensures { IfOk result (λ all. all ≡ map (seen self.now home) types.now) }
    {
        let mut all = Items::new(self.alloc);
        for one in types {
            all.push(self.seen(home, *one))?;
        }
        Ok(all)
    }

    /// The number of an array type.
    fn array_type(
        &mut self,
        home: Option<u32>,
        indexes: Items<u32>,
        component: u32,
    ) -> Result<u32, Memory>
        ensures { IfOk result (λ n. numbered self.old home (ArrayOf indexes component) ≡ (self.new, n)) }
    {
        let bare_indexes = self.bare_types(indexes.as_slice())?;
        let seen_indexes = self.seen_types(home, indexes.as_slice())?;
        let of_bare = TypeForm::ArrayOf {
            indexes: bare_indexes,
            component: self.bare(component),
        };
        let of_seen = TypeForm::ArrayOf {
            indexes: seen_indexes,
            component: self.seen(home, component),
        };
        let bare = self.entered(home, of_bare, None, None)?;
        let inside = self.entered(home, of_seen, None, Some(bare))?;
        let form = TypeForm::ArrayOf { indexes, component };
        self.entered(home, form, Some(inside), Some(bare))
    }

    /// The number of a type that is written in the text of a module, or outside of all. A type
    /// that is the same as one of the table has that one's number. After want of memory the table
    /// may have some of the types that the form leads to.
    pub fn numbered(&mut self, home: Option<u32>, form: TypeForm) -> Result<u32, Memory>
        ensures { IfOk result (λ n. numbered self.old home form ≡ (self.new, n)) }
    {
        match form {
            TypeForm::SetOf { base } => self.set_type(home, base),
            TypeForm::ArrayOf { indexes, component } => self.array_type(home, indexes, component),
            whole => self.entered(home, whole, None, None),
        }
    }

    /// The number of a new opaque type, which its own module sees through.
    pub fn numbered_opaque(
        &mut self,
        home: Option<u32>,
        written: u32,
        number: u32,
    ) -> Result<u32, Memory>
        ensures { IfOk result (λ n. numbered_opaque self.old home written number ≡ (self.new, n)) }
    {
        let inside = self.seen(home, number);
        let bare = self.bare(number);
        self.entered(home, TypeForm::Opaque { written }, Some(inside), Some(bare))
    }
}
