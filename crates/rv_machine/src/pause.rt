use rv_isa::{FaultKind, Service};

/// Why a machine is at rest.
#[derive(Clone, Copy, PartialEq, Eq, Debug)]
pub enum Pause {
    /// As many instructions as were allowed have run.
    Paused,
    /// The program asks for a service, and the machine waits for the answer.
    Ask(Service),
    /// The next instruction, at this place, does not run.
    Fault { kind: FaultKind, pc: u32 },
}
