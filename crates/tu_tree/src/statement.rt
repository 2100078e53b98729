use crate::{Bind, Const, Invariant, Range, TypeDeclaration, Var};
use sqlite_items::{Boxed, Items};
use std::marker::Model;
use tu_expr::{At, Expr, Leaf, Path, Spot};

/// Declarations and statements, each with whether a semicolon follows.
#[cycle(block)]
#[derive(Drop)]
pub struct Block {
    pub at: At,
    pub parts: Items<(BlockPart, bool)>,
}

#[cycle(block)]
#[derive(Drop)]
pub enum BlockPart {
    Const(Const),
    Var(Var),
    Type(TypeDeclaration),
    Bind(Bind),
    Statement(Statement),
}

impl Model for Block {
    ghost use Rattle.grammar.specs.Tree.{n-rule, height};
    ghost use Rattle.tu_token.specs.Rules.{r-block};
    ghost use Rattle.tu_token.specs.Syntax.{Of, coded_of};

    ghost Value = { Of r-block };

    ghost coded = { coded_of r-block };

    ghost use Rattle.tu_expr.specs.Leaves.{mark};
    ghost use Rattle.tu_tree.specs.StatementViews.{block_view};

    ghost view = { λ s. n-rule (mark s.at) (block_view s.parts) };

    ghost size = { height };

    ghost use Rattle.tu_tree.specs.Falls.{block_falls};

    ghost size_decreases = { λ a h. block_falls a };
}

/// A statement.
#[cycle(block)]
#[derive(Drop)]
pub struct Statement {
    pub at: At,
    pub form: StatementForm,
}

#[cycle(block)]
#[derive(Drop)]
pub enum StatementForm {
    Assign(Path, Boxed<Expr>),
    /// A call of a procedure.
    Call(Path),
    If {
        condition: Boxed<Expr>,
        block: Block,
        elsifs: Items<Elsif>,
        otherwise: Option<Block>,
    },
    Loop(Option<Invariant>, Block),
    For {
        is_decreasing: bool,
        name: Leaf,
        range: Range,
        invariant: Option<Invariant>,
        block: Block,
    },
    Case {
        subject: Boxed<Expr>,
        arms: Items<Arm>,
        otherwise: Option<Otherwise>,
    },
    Begin(Block),
    Exit,
    ExitWhen(Boxed<Expr>),
    Return,
    Result(Boxed<Expr>),
    Assert(Boxed<Expr>),
    /// In a collection, an element for a pointer.
    New(Path, Path),
    /// From a collection, the element of a pointer.
    Free(Path, Path),
    Tag(Path, Boxed<Expr>),
    Put {
        stream: Option<Boxed<Expr>>,
        first: Shown,
        more: Items<Shown>,
        /// Whether `..` keeps the line open.
        is_open: bool,
    },
    Get {
        stream: Option<Boxed<Expr>>,
        first: Taken,
        more: Items<Taken>,
    },
    /// The variable for the stream, the file's name, and what it is opened for.
    Open(Path, Boxed<Expr>, OpenMode),
    Close(Boxed<Expr>),
    /// The exception that a handler took, raised again.
    Quit,
    /// The exception with a number.
    QuitWith(Boxed<Expr>),
}

/// What a stream is opened for.
#[derive(Clone, Copy, PartialEq, Eq)]
pub enum OpenMode {
    Put,
    Get,
}

/// An arm of a `case`; the place of its `label`.
#[cycle(block)]
#[derive(Drop)]
pub struct Arm {
    pub spot: Spot,
    pub first: Boxed<Expr>,
    pub more: Items<Expr>,
    pub block: Block,
}

/// The last arm of a `case`, without labels; the place of its `label`.
#[cycle(block)]
#[derive(Drop)]
pub struct Otherwise {
    pub spot: Spot,
    pub block: Block,
}

impl Model for Statement {
    ghost use Rattle.grammar.specs.Tree.{n-rule, height};
    ghost use Rattle.tu_token.specs.Rules.{r-statement};
    ghost use Rattle.tu_token.specs.Syntax.{Of, coded_of};

    ghost Value = { Of r-statement };

    ghost coded = { coded_of r-statement };

    ghost use Rattle.tu_expr.specs.Leaves.{mark};
    ghost use Rattle.tu_tree.specs.StatementViews.{statement_view};

    ghost view = { λ s. n-rule (mark s.at) (statement_view s.form) };

    ghost size = { height };

    ghost use Rattle.tu_tree.specs.Falls.{statement_falls};

    ghost size_decreases = { λ a h. statement_falls a };
}

/// A further condition of an `if`, and its block.
#[cycle(block)]
#[derive(Drop)]
pub struct Elsif {
    pub spot: Spot,
    pub condition: Boxed<Expr>,
    pub block: Block,
}

impl Model for Elsif {
    ghost use Rattle.grammar.specs.Tree.{n-rule, height};
    ghost use Rattle.tu_token.specs.Rules.{r-elsif};
    ghost use Rattle.tu_token.specs.Syntax.{Of, coded_of};

    ghost Value = { Of r-elsif };

    ghost coded = { coded_of r-elsif };

    ghost use Rattle.tu_expr.specs.Leaves.{spot_mark};
    ghost use Rattle.tu_tree.specs.StatementViews.{elsif_view};

    ghost view = { λ s. n-rule (spot_mark s.spot) (elsif_view s.condition s.block) };

    ghost size = { height };

    ghost use Rattle.tu_tree.specs.Falls.{elsif_falls};

    ghost size_decreases = { λ a h. elsif_falls a };
}

/// A value that is put, with its least width or without.
#[derive(Drop)]
pub struct Shown {
    pub at: At,
    pub value: Boxed<Expr>,
    pub width: Option<Boxed<Expr>>,
}

impl Model for Shown {
    ghost use Rattle.grammar.specs.Tree.{n-rule};
    ghost use Rattle.tu_token.specs.Rules.{r-shown};
    ghost use Rattle.tu_token.specs.Syntax.{Of, coded_of};

    ghost Value = { Of r-shown };

    ghost coded = { coded_of r-shown };

    ghost use Rattle.tu_expr.specs.Leaves.{mark};
    ghost use Rattle.tu_tree.specs.StatementViews.{shown_view};

    ghost view = { λ s. n-rule (mark s.at) (shown_view s.value s.width) };
}

/// A variable that takes input, and how much.
#[derive(Drop)]
pub struct Taken {
    pub at: At,
    pub path: Path,
    pub amount: Amount,
}

/// How much a variable takes.
#[derive(Drop)]
pub enum Amount {
    Token,
    Line,
    /// As many bytes.
    Count(Boxed<Expr>),
}

impl Model for Taken {
    ghost use Rattle.grammar.specs.Tree.{n-rule};
    ghost use Rattle.tu_token.specs.Rules.{r-taken};
    ghost use Rattle.tu_token.specs.Syntax.{Of, coded_of};

    ghost Value = { Of r-taken };

    ghost coded = { coded_of r-taken };

    ghost use Rattle.tu_expr.specs.Leaves.{mark};
    ghost use Rattle.tu_tree.specs.StatementViews.{taken_view};

    ghost view = { λ s. n-rule (mark s.at) (taken_view s.path s.amount) };
}
