//! The peak of a module with placements, from the loops that they stand at: what the test of the capacity asks, without the text.
#![tactic(auto)]

ghost use Rattle.staged_peaks.specs.Law.{PeaksAreOfPlacements, MostIsOfLoops, MoreAtALoop, OnePlacementMore};

mod live;

pub use live::Live;

/// The peak of a module that meets V13, with placements staged, is the most bytes, over all its loops, of the placements at a loop and at
/// those round it.
pub fn peaks_are_of_placements()
    ensures { PeaksAreOfPlacements }
{}

/// No loop has more with those round it, and one has as many.
pub fn most_is_of_loops()
    ensures { MostIsOfLoops }
{}

/// With bytes more at a loop, the most is what it was, or the bytes round the loop, those more, and the most in the loop.
pub fn more_at_a_loop()
    ensures { MoreAtALoop }
{}

/// So it is with one placement more.
pub fn one_placement_more()
    ensures { OnePlacementMore }
{}
