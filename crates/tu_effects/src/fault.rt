ghost use Rattle.std.specs.Prelude.{◌≡◌};
ghost use Rattle.tu_effects.specs.Faults.{error_at, order, rank, sooner as sooner_of};

use crate::EffectError;
use tu_base::Line;
use tu_core::At;

/// The kinds of faults of effects, as they stand in order on one place.
#[derive(Clone, Copy, PartialEq, Eq)]
pub enum EffectKind {
    FunctionVar,
    FunctionWrites,
    FunctionTalks,
    UnlistedWrite,
}

impl EffectKind {
    fn order(self) -> u64
        ensures { result ≡ order self }
    {
        match self {
            EffectKind::FunctionVar => 0,
            EffectKind::FunctionWrites => 1,
            EffectKind::FunctionTalks => 2,
            EffectKind::UnlistedWrite => 3,
        }
    }

    fn error(self, line: Line) -> EffectError
        ensures { result ≡ error_at self line }
    {
        match self {
            EffectKind::FunctionVar => EffectError::FunctionVar(line),
            EffectKind::FunctionWrites => EffectError::FunctionWrites(line),
            EffectKind::FunctionTalks => EffectError::FunctionTalks(line),
            EffectKind::UnlistedWrite => EffectError::UnlistedWrite(line),
        }
    }
}

/// A fault at a place.
#[derive(Clone, Copy, PartialEq, Eq)]
pub struct Fault {
    pub kind: EffectKind,
    pub at: At,
}

impl Fault {
    fn rank(self) -> u64
        ensures { result ≡ rank self.kind self.at }
    {
        let start: u64 = self.at.start.into();
        4 * start + self.kind.order()
    }

    /// What is told of it.
    pub fn error(self) -> EffectError
        ensures { result ≡ error_at self.kind self.at.line }
    {
        self.kind.error(self.at.line)
    }
}

/// The first one of a fault and of one of a kind at a place.
pub fn sooner(first: Option<Fault>, kind: EffectKind, at: Option<At>) -> Option<Fault>
    ensures { result ≡ sooner_of first kind at }
{
    let Some(at) = at else {
        return first;
    };
    let other = Fault { kind, at };
    match first {
        None => Some(other),
        Some(one) => if other.rank() < one.rank() {
            Some(other)
        } else {
            Some(one)
        },
    }
}
