//! A placement of a memref at a loop from its region there: where its box begins in the values that say so, and how it is copied.
//!
//! The dimensions are those of `placement_regions`, `specs/Sites`, and the way of copying is that of `staged_plans`, `specs/Plans`.
#![tactic(auto)]

ghost use Rattle.planned_placements.specs.Writable.{RegionsMayBePlaced};

mod dims;
mod how;
mod placed;

pub use dims::dims_over;
pub use how::how_over;
pub use placed::{Copied, placement};

/// Each region that is found of a memref argument at a loop of a valid module may be placed.
pub fn regions_may_be_placed()
    ensures { RegionsMayBePlaced }
{}
