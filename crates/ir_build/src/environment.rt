use crate::Names;
use std::alloc::Global;
use tu_value::Fixed;

/// What code may use wherever it stands in its routine: the values that the routine begins with, and
/// the variables that are declared.
#[derive(Clone, Copy)]
pub struct Environment<'a> {
    pub alloc: Global,
    pub fixed: Fixed,
    pub names: &'a Names,
}
