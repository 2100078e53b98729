ghost use Rattle.std.specs.Prelude.{◌≡◌};
ghost use Rattle.tu_overlap.specs.Faults.{error_at, order, rank, sooner as sooner_of};

use crate::AliasError;
use tu_base::Line;
use tu_core::At;

/// The kinds of faults of overlap, as they stand in order on one place.
#[derive(Clone, Copy, PartialEq, Eq)]
pub enum OverlapKind {
    SharedActual,
    ImportedActual,
    HiddenRoot,
    ChangedBound,
}

impl OverlapKind {
    fn order(self) -> u64
        ensures { result ≡ order self }
    {
        match self {
            OverlapKind::SharedActual => 0,
            OverlapKind::ImportedActual => 1,
            OverlapKind::HiddenRoot => 2,
            OverlapKind::ChangedBound => 3,
        }
    }

    fn error(self, line: Line) -> AliasError
        ensures { result ≡ error_at self line }
    {
        match self {
            OverlapKind::SharedActual => AliasError::SharedActual(line),
            OverlapKind::ImportedActual => AliasError::ImportedActual(line),
            OverlapKind::HiddenRoot => AliasError::HiddenRoot(line),
            OverlapKind::ChangedBound => AliasError::ChangedBound(line),
        }
    }
}

/// A fault at a place.
#[derive(Clone, Copy, PartialEq, Eq)]
pub struct Fault {
    pub kind: OverlapKind,
    pub at: At,
}

impl Fault {
    fn rank(self) -> u64
        ensures { result ≡ rank self.kind self.at }
    {
        let start: u64 = self.at.start.into();
        4 * start + self.kind.order()
    }

    /// What is told of it.
    pub fn error(self) -> AliasError
        ensures { result ≡ error_at self.kind self.at.line }
    {
        self.kind.error(self.at.line)
    }
}

/// The first one of a fault and of one of a kind at a place.
pub fn sooner(first: Option<Fault>, kind: OverlapKind, at: Option<At>) -> Option<Fault>
    ensures { result ≡ sooner_of first kind at }
{
    let Some(at) = at else {
        return first;
    };
    let other = Fault { kind, at };
    match first {
        None => Some(other),
        Some(one) => if other.rank() < one.rank() {
            Some(other)
        } else {
            Some(one)
        },
    }
}
