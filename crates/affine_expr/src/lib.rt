//! Affine expressions over dimensions and symbols, maps and integer sets, as the Affine dialect has them: their values,
//! their intervals and their linear forms.
//!
//! `eval` is the value over the integers and takes no number out of 128 bits, `interval` holds every value and is missing
//! exactly where a part leaves -2^62 to 2^62, and `linear` has the expression's value where each local has its floor.
//! Trees are plain data to a contract: a copy equals its source. The crate stands on `num_row` for exact arithmetic and
//! on `sqlite_items`, whose `Boxed` and `Items` are a `Box` and a `Vec` that contracts see as what they hold.
#![tactic(auto)]

mod eval;
mod expr;
mod interval;
mod known;
mod linear;
mod map;

pub use expr::Expr;
pub use linear::{Combination, Join, Leaves, Linear, LinearFault, Local};
pub use map::{Constraint, Interval, Map, Rel, Set};
