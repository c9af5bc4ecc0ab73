//! The spelling of boxes.
#![tactic(auto)]

mod piece;
mod text;

pub use piece::{put, put_name, put_unsigned};
pub use text::put_box;
