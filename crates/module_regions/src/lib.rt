//! The lines of `affine regions`: for each loop at a depth and each memref that it accesses, the box that it touches at each turn,
//! or the one cause for which there is none.
#![tactic(auto)]

mod block;
mod fault;
mod line;
mod lines;
mod sizes;

pub use fault::LinesFault;
pub use lines::region_lines;
