//! Covered boxes: where a region is covered, each time that a run comes to the loop each element of the box is stored to, in the
//! module and in each text on the way of a plan. So such a box need not be read in.
#![tactic(auto)]

ghost use Rattle.placement_covers.specs.Law.{CoverCarries, CoveredIsStored};

/// In a valid module the loop of a placement whose region is covered stores to each element of the box.
pub fn covered_is_stored()
    ensures { CoveredIsStored }
{}

/// It does so in the text in which another placement is staged too.
pub fn cover_carries()
    ensures { CoverCarries }
{}
