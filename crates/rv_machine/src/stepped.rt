use rv_isa::{FaultKind, Service};

// What an instruction came to.
#[derive(Clone, Copy, PartialEq, Eq, Debug)]
pub enum Stepped {
    To(u32),
    Asks(Service),
    Faults(FaultKind),
}
