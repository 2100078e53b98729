//! The text of linear code: where its instructions stand in an image, how many words they are, and that
//! a run of the image does what the code means.
#![tactic(auto)]

mod laws;

pub use laws::{image_agrees, image_is_allowed, text_is_measured};
