use crate::Block;
use sqlite_items::Items;
use std::marker::Model;
use tu_base::{Line, Shape};
use tu_core::{At, CallResult, Formal, GlobalName, LocalName, Variable};

/// What takes the exceptions of a body: the exception's number stands in a local.
#[derive(Drop)]
pub struct Handler {
    pub at: At,
    pub name: u32,
    pub block: Block,
}

/// A subprogram, or the invariant of a module, whose body tests its clause.
pub struct Routine {
    pub gives: CallResult,
    /// Whether it is an invariant, which gives nothing back; the truth value that it finds is a
    /// word of its room.
    pub is_invariant: bool,
    /// The local that stands for the result in `post`.
    pub result: Option<u32>,
    pub formals: Items<Formal>,
    /// Each `*` in the types of the formals.
    pub stars: u32,
    /// The locals behind the formals, by their numbers from there on.
    pub locals: Items<LocalName>,
    /// `pre` and `init`.
    pub before: Block,
    pub body: Block,
    pub handler: Option<Handler>,
    /// `post`
    pub after: Block,
    /// The line of its `end`.
    pub end_line: Line,
    /// The globals that import lists let it read and not change.
    pub fixed: Items<Variable>,
    /// The collections that import lists let it read and not change.
    pub fixed_collections: Items<u32>,
}

// Written, so that what drops one calls this, and does not prove anew how each part is dropped.
impl Drop for Routine {
    fn drop(self) {
        let Routine {
            gives: _,
            is_invariant: _,
            result: _,
            formals: _,
            stars: _,
            locals: _,
            before: _,
            body: _,
            handler: _,
            after: _,
            end_line: _,
            fixed: _,
            fixed_collections: _,
        } = self;
    }
}

impl Model for Routine {
    ghost use Rattle.tu_core.specs.Core.{Routine};
    ghost use Rattle.tu_core_types.specs.ProgramCodes.{coded_routine};

    ghost Value = { Routine };

    ghost coded = { coded_routine };

    ghost use Rattle.tu_core_types.specs.ProgramViews.{handler_view};

    ghost view = { λ s. record { gives = s.gives; is_invariant = s.is_invariant; result = s.result; formals = s.formals; stars = s.stars; locals = s.locals; before = s.before; body = s.body; handler = handler_view s.handler; after = s.after; end_line = s.end_line; fixed = s.fixed; fixed_collections = s.fixed_collections } };
}

/// A program as the checks leave it.
pub struct Program {
    pub shapes: Items<Shape>,
    pub globals: Items<GlobalName>,
    /// The shape of the elements of each collection.
    pub collections: Items<u32>,
    pub routines: Items<Routine>,
    /// Of the main program.
    pub locals: Items<LocalName>,
    pub main: Block,
}

// Written, so that what drops one calls this, and does not prove anew how each part is dropped.
impl Drop for Program {
    fn drop(self) {
        let Program {
            shapes: _,
            globals: _,
            collections: _,
            routines: _,
            locals: _,
            main: _,
        } = self;
    }
}

impl Model for Program {
    ghost use Rattle.tu_core.specs.Core.{Program};
    ghost use Rattle.tu_core_types.specs.ProgramCodes.{coded_program};

    ghost Value = { Program };

    ghost coded = { coded_program };

    ghost view = { λ s. record { shapes = s.shapes; globals = s.globals; collections = s.collections; routines = s.routines; locals = s.locals; main = s.main } };
}
