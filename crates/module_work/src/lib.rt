//! The work of a module: a bound on the number of its actions, from its text alone.
//!
//! `work` counts one for each plain statement, the count and three for a start, and for a loop the most turns that its bounds
//! allow, times the work of its body; from 2^127 on it stays there. It is that of `direct_meaning`, `specs/Work`, exactly. The
//! crate stands on the intervals of `affine_verify`, the trees of `affine_ast` and the laws of valid modules.
#![tactic(auto)]

pub mod bounds;
mod count;
pub mod ranges;
mod statements;
mod total;

pub use total::{range_or, work};
