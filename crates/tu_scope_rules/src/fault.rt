// A fault of scopes.
ghost use Rattle.std.specs.Prelude.{◌≡◌};
ghost use Rattle.tu_scope_rules.specs.Least.{earlier, is_before, kind_number};

use tu_base::Line;

/// What is wrong with a name, in the order in which faults at one place are told.
#[derive(Clone, Copy, Debug)]
pub enum FaultKind {
    Unknown,
    NotImported,
    NotExported,
    Twice,
    BodyMissing,
    WrongEnd,
}

/// A fault, where it begins and on which line.
#[derive(Clone, Copy, Debug)]
pub struct Fault {
    pub kind: FaultKind,
    pub start: u32,
    pub line: Line,
}

impl FaultKind {
    fn number(self) -> u32
        ensures { result ≡ kind_number self }
    {
        match self {
            FaultKind::Unknown => 0,
            FaultKind::NotImported => 1,
            FaultKind::NotExported => 2,
            FaultKind::Twice => 3,
            FaultKind::BodyMissing => 4,
            FaultKind::WrongEnd => 5,
        }
    }
}

impl Fault {
    fn is_before(&self, other: &Fault) -> bool
        ensures { result ≡ is_before self.now other.now }
    {
        self.start < other.start
            || self.start == other.start && self.kind.number() < other.kind.number()
    }

    /// The earlier one of a new fault and an older one.
    pub fn earlier(self, old: Option<Fault>) -> Fault
        ensures { result ≡ earlier self old }
    {
        match old {
            None => self,
            Some(old) => { if old.is_before(&self) { old } else { self } }
        }
    }
}
