//! Images of programs, their bytes, and the run of an image as a definition.
#![tactic(auto)]

mod image;
mod laws;

pub use image::{Image, ImageError};
pub use laws::{reads_again, spelled_once};
