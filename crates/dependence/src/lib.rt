//! Whether two boxes of a memref may share an element at two turns of a loop.
//!
//! `clash` asks for a scaled point of the rows of the loop's outside at both turns with one number a dimension that lies in both
//! boxes. Where there is none, no element lies in both.
#![tactic(auto)]

ghost use Rattle.dependence.specs.Laws.{NoClashIsApart};

mod clashes;
mod stretches;
mod turns;

pub use clashes::clash;

/// Where two boxes don't clash at a distance, no element lies in both at two visits at this distance.
pub fn no_clash_is_apart()
    ensures { NoClashIsApart }
{}
