//! Runs a machine and serves it: a console, and files by streams.
#![tactic(auto)]

mod files;
mod host;
mod name;
mod service;
mod stream;
mod streams;

pub use host::{HostEnd, run};
