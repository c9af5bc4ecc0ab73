//! The two parts of a source: the text of a module, and behind a line `---` the text of an image.
//!
//! `split` cuts a source at its first line `---`. What the parts are is a definition over the lines of the source
//! (`specs/Parts.antt`); `parts_are_exact` says the same of bytes, and that no other two parts are a source's. The crate stands
//! on std alone.
#![tactic(auto)]

mod laws;
mod parts;

pub use laws::parts_are_exact;
pub use parts::{Parts, split};
