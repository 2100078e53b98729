//! Types, which name each other by their numbers in a table.

use sqlite_items::Items;
use tu_base::Bytes;
use tu_type_base::Int;

/// A field of a record or of a variant, with its type.
#[derive(Drop)]
pub struct Field {
    pub name: Bytes,
    pub type_number: u32,
}

/// The fields that a union has while its tag is one of these labels; without labels, while it is
/// any that no other variant has.
#[derive(Drop)]
pub struct Variant {
    pub labels: Items<i32>,
    pub fields: Items<Field>,
}

/// What a type is. `written` is the number of the node that writes it.
#[derive(Drop)]
pub enum TypeForm {
    Int,
    Boolean,
    /// Of int, or of an enumeration.
    Subrange {
        root: u32,
        low: Int,
        high: Int,
    },
    Enumeration {
        written: u32,
        values: Items<Bytes>,
    },
    /// Of at most so many bytes.
    String {
        most: u32,
    },
    SetOf {
        base: u32,
    },
    PointerTo {
        collection: u32,
    },
    ArrayOf {
        indexes: Items<u32>,
        component: u32,
    },
    Record {
        written: u32,
        fields: Items<Field>,
    },
    /// The tag may be without a name.
    Union {
        written: u32,
        tag_name: Option<Bytes>,
        tag: u32,
        variants: Items<Variant>,
    },
    /// A type that a module exports as opaque.
    Opaque {
        written: u32,
    },
}

/// A type of the table. Within the body of the module whose text it is of (`home`) the opaque
/// types of that module are seen through: there it is the type `inside`. Where all opaque types are
/// seen through it is the type `bare`, whose shape its values have. `words` are cut off one above
/// the limit.
#[derive(Drop)]
pub struct Row {
    pub form: TypeForm,
    pub home: Option<u32>,
    pub inside: u32,
    pub bare: u32,
    pub words: u32,
}
