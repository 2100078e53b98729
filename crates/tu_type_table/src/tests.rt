// Small tables.

use crate::{Field, TypeForm, TypeTable};
use sqlite_items::Items;
use std::alloc::Global;
use std::test::Fail;
use tu_base::{Bytes, Memory, Shape};
use tu_type_base::Int;

fn subrange(low: i32, high: i32) -> Result<TypeForm, Memory> {
    Ok(TypeForm::Subrange {
        root: 0,
        low: Int::new(low).ok_or(Memory)?,
        high: Int::new(high).ok_or(Memory)?,
    })
}

fn record(alloc: Global, written: u32) -> Result<TypeForm, Memory> {
    let mut fields = Items::new(alloc);
    let name = Bytes::from_slice(alloc, b"count")?;
    fields.push(Field {
        name,
        type_number: 0,
    })?;
    Ok(TypeForm::Record { written, fields })
}

fn array(alloc: Global, index: u32, component: u32) -> Result<TypeForm, Memory> {
    let indexes = Items::from_slice(alloc, &[index])?;
    Ok(TypeForm::ArrayOf { indexes, component })
}

#[test]
fn equal_subranges_have_one_number(rt: HostRuntime) -> Result<(), Fail> {
    let mut table = TypeTable::new(rt.alloc())?;
    let first = table.numbered(None, subrange(1, 10)?)?;
    let second = table.numbered(None, subrange(1, 10)?)?;
    let other = table.numbered(None, subrange(1, 11)?)?;
    assert_eq!(rt; (first, second, other), (3, 3, 4));
    assert_eq!(rt; table.root(first), 0);
    assert_eq!(rt; table.base(first).members, 10);
    Ok(())
}

#[test]
fn written_records_are_two_types(rt: HostRuntime) -> Result<(), Fail> {
    let alloc = rt.alloc();
    let mut table = TypeTable::new(alloc)?;
    let first = table.numbered(None, record(alloc, 20)?)?;
    let second = table.numbered(None, record(alloc, 30)?)?;
    let again = table.numbered(None, record(alloc, 20)?)?;
    assert_eq!(rt; (first, second, again), (3, 4, 3));
    Ok(())
}

#[test]
fn arrays_have_the_words_of_their_elements(rt: HostRuntime) -> Result<(), Fail> {
    let alloc = rt.alloc();
    let mut table = TypeTable::new(alloc)?;
    let index = table.numbered(None, subrange(1, 10)?)?;
    let row = table.numbered(None, array(alloc, index, 2)?)?;
    assert_eq!(rt; table.words(row), 650);
    let all = table.numbered(None, array(alloc, 0, row)?)?;
    assert_eq!(rt; table.words(all), 4_194_305);
    Ok(())
}

#[test]
fn opaque_types_are_seen_through_at_home(rt: HostRuntime) -> Result<(), Fail> {
    let alloc = rt.alloc();
    let mut table = TypeTable::new(alloc)?;
    let opaque = table.numbered_opaque(Some(7), 40, 2)?;
    assert_eq!(rt; table.seen(Some(7), opaque), 2);
    assert_eq!(rt; table.seen(Some(8), opaque), opaque);
    assert_eq!(rt; table.seen(None, opaque), opaque);
    let shapes = table.shapes(alloc)?;
    assert_eq!(rt; shapes.len(), 4);
    let shape = shapes.get(3);
    assert!(rt; matches!(shape, Some(Shape::Text { most: 255 })));
    Ok(())
}

#[test]
fn pointers_are_found_by_their_collection(rt: HostRuntime) -> Result<(), Fail> {
    let mut table = TypeTable::new(rt.alloc())?;
    assert_eq!(rt; table.pointer_type(5), None);
    let pointer = table.numbered(None, TypeForm::PointerTo { collection: 5 })?;
    assert_eq!(rt; table.pointer_type(5), Some(pointer));
    assert_eq!(rt; table.words(pointer), 2);
    Ok(())
}
