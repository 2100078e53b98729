use crate::Kind;
use sqlite_items::Items;
use tu_core::{At, Variable};
use tu_type_constants::Constant;

/// A formal, with the place of its `var`.
#[derive(Drop)]
pub struct Parameter {
    pub kind: Kind,
    pub is_var: bool,
    pub at: At,
}

/// What is known of a subprogram before its body.
#[derive(Drop)]
pub struct Head {
    pub parameters: Items<Parameter>,
    /// The type of its result, where it is a function.
    pub result: Option<u32>,
    /// The declaration number of its result's name.
    pub result_name: Option<u32>,
    /// Each `*` in the types of its formals.
    pub stars: u32,
    /// What its import list and its module let it read and not change.
    pub fixed: Items<Variable>,
    pub fixed_collections: Items<u32>,
}

/// A variable, a constant, a formal, an index of `for`, or a name of `bind`, of `init`, of a
/// handler or of a result.
#[derive(Drop)]
pub struct Holder {
    pub variable: Variable,
    pub kind: Kind,
    pub is_variable: bool,
    /// The type that an index goes through.
    pub through: Option<u32>,
    pub constant: Constant,
}

/// What a name stands for.
#[derive(Drop)]
pub enum Entity {
    Holds(Holder),
    TypeName { type_number: u32 },
    CollectionName { collection: u32 },
    SubprogramName { routine: u32 },
    /// With the routine of its invariant.
    ModuleName { invariant: Option<u32> },
}
