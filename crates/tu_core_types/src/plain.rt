use sqlite_items::Items;
use std::marker::Model;
use tu_base::Span;
use tu_core::{At, Claim, Size, Target};
use tu_core_expressions::{Call, Path, Scalar, Simple, Text};

/// A part of `put`, with its width.
#[derive(Drop)]
pub enum Shown {
    ShowInt {
        value: Scalar,
        width: Option<Scalar>,
    },
    ShowTruth {
        value: Scalar,
        width: Option<Scalar>,
    },
    ShowText {
        value: Text,
        width: Option<Scalar>,
    },
}

/// A target of `get`.
#[derive(Drop)]
pub enum Taken {
    TakeInt(Span, Path),
    TakeTruth(Path),
    TakeToken(Size, Path),
    TakeLine(Size, Path),
    TakeCount {
        size: Size,
        place: Path,
        count: Scalar,
    },
}

/// A statement with no block in it.
#[derive(Drop)]
pub struct Plain {
    pub form: PlainForm,
}

#[derive(Drop)]
pub enum PlainForm {
    Assign(Target, Path, Simple),
    /// Of a shape with parts.
    Copy {
        shape: u32,
        to: Path,
        from: Path,
    },
    Exit {
        condition: Option<Scalar>,
    },
    Return,
    /// `result`
    Give(Target, Simple),
    GiveCopy {
        shape: u32,
        place: Path,
    },
    Check(Claim, Scalar),
    /// The collection's name has a place of its own.
    New {
        collection: u32,
        at: At,
        place: Path,
    },
    Free {
        collection: u32,
        at: At,
        place: Path,
    },
    /// The tag of a union of this shape.
    Tag {
        shape: u32,
        place: Path,
        value: Scalar,
    },
    /// `..` leaves out the line's end.
    Put {
        stream: Option<Scalar>,
        shown: Items<Shown>,
        ends_line: bool,
    },
    Get {
        stream: Option<Scalar>,
        taken: Items<Taken>,
    },
    OpenStream {
        span: Span,
        place: Path,
        name: Text,
        is_put: bool,
    },
    Close(Scalar),
    Do(Call),
    /// With the number of an exception, or with the one that the handler has taken.
    Quit {
        number: Option<Scalar>,
    },
}

impl Model for Plain {
    ghost use Rattle.tu_core.specs.Core.{Plain};
    ghost use Rattle.tu_core_types.specs.StatementCodes.{coded_plain};

    ghost Value = { Plain };

    ghost coded = { coded_plain };

    ghost use Rattle.tu_core_types.specs.StatementViews.{plain_view};

    ghost view = { λ s. plain_view s.form };
}
