// Values by their sorts.
ghost use Rattle.std.specs.Prelude.{◌≡◌};
ghost use Rattle.tu_type_operands.specs.Operands.{OfCall, OfPlace, value_of_sort};

use crate::Sort;
use tu_core_expressions::{
    Call, Path, Pointer, PointerForm, Scalar, ScalarForm, Set, SetForm, Simple, SimpleForm, Text,
    TextForm,
};

/// A value by what operators ask of it.
#[derive(Drop)]
pub enum Value {
    Number { root: u32, scalar: Scalar },
    String(Text),
    Members { base: u32, set: Set },
    Points { collection: u32, pointer: Pointer },
    /// What is of an opaque type: no operator takes it.
    Sealed(Simple),
    /// An array, a record or a union.
    Parts,
}

/// What is read at a place.
pub fn read_at(node: u32, sort: Sort, path: Path) -> Value
    ensures { result ≡ value_of_sort node (OfPlace path) sort }
{
    match sort {
        Sort::NumberSort { root } => Value::Number {
            root,
            scalar: Scalar {
                node,
                form: ScalarForm::Use(path),
            },
        },
        Sort::StringSort => Value::String(Text {
            node,
            form: TextForm::UseText(path),
        }),
        Sort::MembersSort { base } => Value::Members {
            base,
            set: Set {
                node,
                form: SetForm::UseSet(path),
            },
        },
        Sort::PointsSort { collection } => Value::Points {
            collection,
            pointer: Pointer {
                node,
                form: PointerForm::UsePointer(path),
            },
        },
        Sort::SealedNumber => Value::Sealed(Simple {
            form: SimpleForm::AScalar(Scalar {
                node,
                form: ScalarForm::Use(path),
            }),
        }),
        Sort::SealedText => Value::Sealed(Simple {
            form: SimpleForm::AText(Text {
                node,
                form: TextForm::UseText(path),
            }),
        }),
        Sort::SealedSet => Value::Sealed(Simple {
            form: SimpleForm::ASet(Set {
                node,
                form: SetForm::UseSet(path),
            }),
        }),
        Sort::SealedPointer => Value::Sealed(Simple {
            form: SimpleForm::APointer(Pointer {
                node,
                form: PointerForm::UsePointer(path),
            }),
        }),
        Sort::PartsSort => Value::Parts,
    }
}

/// What a call gives.
pub fn given_by(node: u32, sort: Sort, call: Call) -> Value
    ensures { result ≡ value_of_sort node (OfCall call) sort }
{
    match sort {
        Sort::NumberSort { root } => Value::Number {
            root,
            scalar: Scalar {
                node,
                form: ScalarForm::CallScalar(call),
            },
        },
        Sort::StringSort => Value::String(Text {
            node,
            form: TextForm::CallText(call),
        }),
        Sort::MembersSort { base } => Value::Members {
            base,
            set: Set {
                node,
                form: SetForm::CallSet(call),
            },
        },
        Sort::PointsSort { collection } => Value::Points {
            collection,
            pointer: Pointer {
                node,
                form: PointerForm::CallPointer(call),
            },
        },
        Sort::SealedNumber => Value::Sealed(Simple {
            form: SimpleForm::AScalar(Scalar {
                node,
                form: ScalarForm::CallScalar(call),
            }),
        }),
        Sort::SealedText => Value::Sealed(Simple {
            form: SimpleForm::AText(Text {
                node,
                form: TextForm::CallText(call),
            }),
        }),
        Sort::SealedSet => Value::Sealed(Simple {
            form: SimpleForm::ASet(Set {
                node,
                form: SetForm::CallSet(call),
            }),
        }),
        Sort::SealedPointer => Value::Sealed(Simple {
            form: SimpleForm::APointer(Pointer {
                node,
                form: PointerForm::CallPointer(call),
            }),
        }),
        Sort::PartsSort => Value::Parts,
    }
}
