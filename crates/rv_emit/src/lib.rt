//! From assigned code to the text of an image.
#![tactic(auto)]

mod calls;
mod code;
mod emitter;
mod frame;
mod handing;
mod labels;
mod laws;
mod lengths;
mod site;
mod sizes;
mod survey;

pub use emitter::{Emitted, emit};
pub use laws::text_is_bounded;
pub use sizes::text_words;
