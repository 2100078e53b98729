//! The instructions of RV32IM, their words both ways, and what one of them does.
//!
//! The standard is the RISC-V Unprivileged ISA, base RV32I with the M extension.
#![tactic(auto)]

mod decoder;
mod encoder;
mod instr;
mod laws;
mod service;
mod signed;
mod text;

pub use decoder::decode;
pub use encoder::encode;
pub use instr::{ImmediateOp, Instr, LoadKind, RegisterOp, Relation, ShiftOp, StoreKind};
pub use laws::{decoded_fits, decodes_again, text_stays};
pub use service::{FaultKind, Service};
pub use text::Text;
