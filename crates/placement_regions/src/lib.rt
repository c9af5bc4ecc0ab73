//! Regions and placements: the box that a placement takes from the region of its memref at a loop is one that staging may use.
//!
//! `specs/Sites` has the way to a place of a text and the dimensions of a placement over a region. The laws join `access_region`
//! and `placement_texts`: what the first says of every visit of a loop, the second asks for each time that a text comes to it.
#![tactic(auto)]

ghost use Rattle.placement_regions.specs.Law.{RegionsAreFine, RegionsAreSized};

/// In a valid module, each time that a run comes to the loop, the box of a placement lies in the memref, and the loop's accesses
/// of the memref lie in the box.
pub fn regions_are_fine()
    ensures { RegionsAreFine }
{}

/// Its sizes are the memref's, and its extents are between 1 and these.
pub fn regions_are_sized()
    ensures { RegionsAreSized }
{}
