//! Covers: whether the loops round one store make it sweep a whole box, by the forms of bounds, subscripts and the values that they use.
#![tactic(auto)]

mod along;
mod bounds;
mod same;
mod store;
mod sweeps;
mod variables;

ghost use Rattle.box_covers.specs.Law.{CoveredIsSwept};

pub use store::covers_store;

/// Where a box is covered, each of its elements is stored to in each visit of the loop, and by one store, so none is loaded.
pub fn covered_is_swept()
    ensures { CoveredIsSwept }
{}
