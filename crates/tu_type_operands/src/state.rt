use crate::{Entities, Head, Uses};
use sqlite_items::Items;
use tu_base::Line;
use tu_core::{At, GlobalName, LocalName, Variable};
use tu_core_types::Routine;
use tu_type_table::TypeTable;

/// The text that a place belongs to.
#[derive(Clone, Copy, PartialEq, Eq)]
pub enum Owner {
    OfMain,
    OfProcedure,
    OfFunction { result: u32 },
}

/// What stands around a place: its text, and the module whose body it stands in.
#[derive(Clone, Copy, PartialEq, Eq)]
pub struct Around {
    pub owner: Owner,
    pub in_loop: bool,
    pub in_handler: bool,
    pub home: Option<u32>,
}

/// What a module's head and body say.
#[derive(Drop)]
pub struct ModuleText {
    /// The types that are opaque outside, by their declaration numbers.
    pub opaques: Items<u32>,
    /// What may not be changed in it.
    pub fixed: Items<Variable>,
    pub fixed_collections: Items<u32>,
    /// Its invariant's routine, with the line of its clause.
    pub invariant: Option<(u32, Line)>,
}

/// What is known at a place.
#[derive(Drop)]
pub struct State {
    pub uses: Uses,
    pub types: TypeTable,
    /// What each declaration declares, the latest first.
    pub entities: Entities,
    /// The head of each routine, by its number; an invariant has none of its own.
    pub heads: Items<Head>,
    /// The type of the elements of each collection.
    pub elements: Items<u32>,
    pub globals: Items<GlobalName>,
    pub global_words: u32,
    pub routines: Items<Routine>,
    /// The formals of the text, whose locals stand behind them.
    pub formals: u32,
    pub locals: Items<LocalName>,
    /// The collections that the types of a declaration name.
    pub mentions: Items<(At, u32)>,
    pub own: ModuleText,
    pub around: Around,
}
