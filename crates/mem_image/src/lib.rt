//! Image texts: the initial memory of a module as its user writes it, and the final one as it is printed.
//!
//! A text has a line for each argument: its name without `%`, `=`, and its numbers. `parse_image` gives the image that a text
//! spells, or the first line that breaks one of the rules I1 to I4 with the lowest that it breaks; `print_image` gives the
//! printed text, which is read back as the same image. The crate stands on `affine_ast`, `num_row` and the definitions of
//! `direct_meaning`.
#![tactic(auto)]

mod forms;
mod laws;
mod lines;
mod parse;
mod print;

pub use laws::image_texts_are_exact;
pub use parse::{ImageFault, parse_image};
pub use print::print_image;
