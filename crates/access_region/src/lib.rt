//! The region of a memref at a loop: a box, at each turn of the outer loops, that holds the accesses of the memref in the loop.
#![tactic(auto)]

ghost use Rattle.access_region.specs.Laws.{RegionsLieWithin, RegionsHold, RegionsAreOver};

mod at;
mod candidate;
mod cover;
mod dimension;
mod fault;
mod fits;
mod gather;
mod multiple;
mod reaching;
mod region;
mod span;
mod widening;

pub use at::{region_of, region_of_uses};
pub use cover::covers;
pub use fault::RegionFault;
pub use gather::outside_of;
pub use reaching::{Outside, Reaching};
pub use region::region_from;

/// At all whole values of the outer variables and the locals that meet the rows of the loop's outside the region lies within the memref.
pub fn regions_lie_within()
    ensures { RegionsLieWithin }
{}

/// In each visit of a loop of a valid module the region lies within the memref, and each subscript of an affine access in the loop that
/// lies within its size lies in the region.
pub fn regions_hold()
    ensures { RegionsHold }
{}

/// A region has a coefficient for each outer variable.
pub fn regions_are_over()
    ensures { RegionsAreOver }
{}
