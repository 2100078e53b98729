use crate::{Declaration, Plain};
use sqlite_items::Items;
use std::marker::Model;
use tu_base::{Line, Span};
use tu_core::{At, Claim, Variable};
use tu_core_expressions::{Path, Scalar};

/// The range of a `for`.
#[derive(Drop)]
pub struct Range {
    pub form: RangeForm,
}

#[derive(Drop)]
pub enum RangeForm {
    /// Bounds that are evaluated.
    FromTo { first: Scalar, last: Scalar },
    /// Those of a type.
    Through(Span),
}

impl Model for Range {
    ghost use Rattle.tu_core.specs.Core.{Range};
    ghost use Rattle.tu_core_types.specs.StatementCodes.{coded_range};

    ghost Value = { Range };

    ghost coded = { coded_range };

    ghost use Rattle.tu_core_types.specs.StatementViews.{range_view};

    ghost view = { λ s. range_view s.form };
}

/// An `assert`, a `pre`, a `post` or an invariant.
#[derive(Drop)]
pub struct Test {
    pub at: At,
    pub claim: Claim,
    pub condition: Scalar,
}

impl Model for Test {
    ghost use Rattle.tu_core.specs.Core.{Test};
    ghost use Rattle.tu_core_types.specs.StatementCodes.{coded_test};

    ghost Value = { Test };

    ghost coded = { coded_test };

    ghost view = { λ s. record { at = s.at; claim = s.claim; condition = s.condition } };
}

/// A statement, with the place of its first token.
#[cycle(statement)]
#[derive(Drop)]
pub struct Statement {
    pub at: At,
    pub form: StatementForm,
}

#[cycle(statement)]
#[derive(Drop)]
pub enum StatementForm {
    Simply(Plain),
    If {
        condition: Scalar,
        block: Block,
        elsifs: Items<Elsif>,
        otherwise: Block,
    },
    Loop {
        invariant: Option<Test>,
        block: Block,
    },
    For {
        index: u32,
        is_decreasing: bool,
        range: Range,
        invariant: Option<Test>,
        block: Block,
    },
    /// The arm without labels is the last one.
    Case {
        subject: Scalar,
        arms: Items<Arm>,
        otherwise: Option<Block>,
    },
    Begin(Block),
    /// The body of a module, in which these globals and collections may not be changed. Its
    /// invariant, a routine, is called as it ends, at the line of its clause.
    Module {
        fixed: Items<Variable>,
        fixed_collections: Items<u32>,
        invariant: Option<u32>,
        invariant_line: Line,
        block: Block,
    },
}

impl Model for Statement {
    ghost use Rattle.tu_core.specs.Core.{Statement};
    ghost use Rattle.tu_core_types.specs.StatementCodes.{coded_statement};

    ghost Value = { Statement };

    ghost coded = { coded_statement };

    ghost use Rattle.tu_core_types.specs.StatementViews.{statement_view};

    ghost view = { λ s. statement_view s.at s.form };

    ghost use Rattle.tu_core_types.specs.StatementHeights.{height_of_statement};

    ghost size = { height_of_statement };

    ghost use Rattle.tu_core_types.specs.StatementFalls.{statement_falls};

    ghost size_decreases = { λ a h. statement_falls a };
}

/// An arm of `if` behind the first.
#[cycle(statement)]
#[derive(Drop)]
pub struct Elsif {
    pub at: At,
    pub condition: Scalar,
    pub block: Block,
}

/// An arm of `case` with labels.
#[cycle(statement)]
#[derive(Drop)]
pub struct Arm {
    pub labels: Items<i32>,
    pub block: Block,
}

/// Statements in order. What is declared or bound has the rest of the block as its scope.
#[cycle(statement)]
#[derive(Drop)]
pub struct Block {
    pub parts: Items<Part>,
}

#[cycle(statement)]
#[derive(Drop)]
pub enum Part {
    Then(Statement),
    Declare(At, Declaration),
    /// The name is a copy of the part at the place, or with `is_var` stands for it.
    Bind {
        at: At,
        name: u32,
        is_var: bool,
        place: Path,
    },
}

impl Model for Block {
    ghost use Rattle.tu_core.specs.Core.{Block};
    ghost use Rattle.tu_core_types.specs.StatementCodes.{coded_block};

    ghost Value = { Block };

    ghost coded = { coded_block };

    ghost use Rattle.tu_core_types.specs.StatementViews.{parts_view};

    ghost view = { λ s. parts_view s.parts };

    ghost use Rattle.tu_core_types.specs.StatementHeights.{height_of_block};

    ghost size = { height_of_block };

    ghost use Rattle.tu_core_types.specs.StatementFalls.{block_falls};

    ghost size_decreases = { λ a h. block_falls a };
}
