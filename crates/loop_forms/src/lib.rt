//! The loops that a loop is split into for a ring of buffers: a prologue that only fetches, a main loop, and an epilogue that
//! only works on what was fetched.
//!
//! `split` is its definition; the law says which turns of the loop its parts have.
#![tactic(auto)]

ghost use Rattle.loop_forms.specs.Laws.{SplitCutsTurns};

mod bounds;
mod leaves;
mod numbers;
mod parts;
mod sums;

pub use bounds::split;
pub use parts::Parts;

/// For all values of the bounds, prologue, main loop and epilogue have the loop's first turns, all but its last ones, and its
/// last ones, one fewer than the ring has buffers.
pub fn split_cuts_turns()
    ensures { SplitCutsTurns }
{}
