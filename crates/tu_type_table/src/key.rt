// Numbers that are equal where two types are the same.
ghost use Rattle.std.specs.Prelude.{◌≡◌, ◌++◌, IfOk, map, pos};
ghost use Rattle.tu_type_table.specs.Index.{key_of};

use crate::TypeForm;
use std::alloc::Global;
use tu_base::Memory;

fn numbers(alloc: Global, numbers: &[i64]) -> Result<Vec<i64>, Memory>
    ensures { IfOk result (λ key. key.items ≡ numbers.now) }
{
    let key = Vec::from_slice(alloc, numbers)?;
    Ok(key)
}

fn append(mut key: Vec<i64>, indexes: &[u32]) -> Result<Vec<i64>, Memory>
    ensures { IfOk result (λ longer. longer.items ≡ key.items ++ map pos indexes.now) }
{
    for index in indexes {
        key.push((*index).into())?;
    }
    Ok(key)
}

/// The key of a type.
pub fn key_of(alloc: Global, form: &TypeForm) -> Result<Vec<i64>, Memory>
    ensures { IfOk result (λ key. key.items ≡ key_of form.now) }
{
    match form {
        TypeForm::Int => numbers(alloc, &[0]),
        TypeForm::Boolean => numbers(alloc, &[1]),
        TypeForm::Subrange { root, low, high } => {
            let root: i64 = (*root).into();
            let low: i64 = low.get().into();
            let high: i64 = high.get().into();
            numbers(alloc, &[2, root, low, high])
        }
        TypeForm::Enumeration { written, .. } => numbers(alloc, &[3, (*written).into()]),
        TypeForm::String { most } => numbers(alloc, &[4, (*most).into()]),
        TypeForm::SetOf { base } => numbers(alloc, &[5, (*base).into()]),
        TypeForm::PointerTo { collection } => numbers(alloc, &[6, (*collection).into()]),
        TypeForm::ArrayOf { indexes, component } => {
            let key = numbers(alloc, &[7, (*component).into()])?;
            append(key, indexes.as_slice())
        }
        TypeForm::Record { written, .. } => numbers(alloc, &[8, (*written).into()]),
        TypeForm::Union { written, .. } => numbers(alloc, &[9, (*written).into()]),
        TypeForm::Opaque { written } => numbers(alloc, &[10, (*written).into()]),
    }
}
