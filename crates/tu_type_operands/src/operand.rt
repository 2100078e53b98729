// What expressions come to.
ghost use Rattle.std.specs.Prelude.{◌≡◌};
ghost use Rattle.tu_type_operands.specs.Operands.{value_found, value_of};

use crate::value::read_at;
use crate::{Kind, Value};
use std::marker::Model;
use tu_core_expressions::Path;
use tu_type_constants::Constant;

/// A place.
#[derive(Drop)]
pub struct Place {
    pub path: Path,
    pub is_variable: bool,
    /// Of an index that goes through a type, that type.
    pub through: Option<u32>,
}

/// What is read at a place, or given by a call.
#[derive(Clone, Copy, PartialEq, Eq)]
pub enum Sort {
    NumberSort { root: u32 },
    StringSort,
    MembersSort { base: u32 },
    PointsSort { collection: u32 },
    /// Of an opaque type that is a number, a text, a set or a pointer.
    SealedNumber,
    SealedText,
    SealedSet,
    SealedPointer,
    /// An array, a record or a union.
    PartsSort,
}

/// A place, which is read where its value is asked for, at the node with this number; or a value.
#[derive(Drop)]
pub enum Found {
    AtPlace { node: u32, sort: Sort, place: Place },
    AValue(Value),
}

/// What an expression comes to.
#[derive(Drop)]
pub struct OperandForm {
    pub kind: Kind,
    /// Its type as it was declared, which may be opaque elsewhere and is seen through here.
    pub declared: Kind,
    pub found: Found,
    pub constant: Constant,
}

/// What an expression comes to, in hand.
pub struct Operand {
    form: OperandForm,
}

// Written, so that what drops one calls this, and does not prove anew how each part is dropped.
impl Drop for Operand {
    fn drop(self) {
        let Operand { form: _ } = self;
    }
}

impl Model for Operand {
    ghost use Rattle.tu_type_operands.specs.declared.operand.OperandForm.{OperandForm};

    ghost Value = { OperandForm };

    ghost use Rattle.std.specs.Coded.{codes};
    ghost use Rattle.tu_core_expressions.specs.ExpressionCodes.{coded_path, coded_pointer, coded_scalar, coded_set, coded_simple, coded_text};

    ghost coded = { Prim.hlevel (codes, coded_path, coded_pointer, coded_scalar, coded_set, coded_simple, coded_text) };

    ghost view = { λ s. s.form };
}

impl Operand {
    pub fn new(form: OperandForm) -> Self
        ensures { result ≡ form }
    {
        Operand { form }
    }

    pub fn into_form(self) -> OperandForm
        ensures { result ≡ self }
    {
        let Operand { form } = self;
        form
    }

    pub fn form(&self) -> &OperandForm
        ensures { result.now ≡ self.now }
    {
        &self.form
    }

    /// What it is where it is evaluated.
    pub fn into_value(self) -> Value
        ensures { result ≡ value_of self }
    {
        self.into_form().found.into_value()
    }
}

impl Found {
    /// What it is where it is evaluated.
    pub fn into_value(self) -> Value
        ensures { result ≡ value_found self }
    {
        match self {
            Found::AtPlace { node, sort, place } => read_at(node, sort, place.path),
            Found::AValue(value) => value,
        }
    }
}
