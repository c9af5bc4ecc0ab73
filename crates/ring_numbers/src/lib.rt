//! Worked rings: texts of rings inward and outward, for several numbers of buffers, and a plan with doubling, by computing.
#![tactic(auto)]

ghost use Rattle.ring_numbers.specs.Law.{OutwardPlansAre, RingPlansAre, RingsAre};

/// The texts of tiles with rings: the three loops inward, the one loop and the last waits outward.
pub fn rings_are()
    ensures { RingsAre }
{}

/// The plan of the tiles with two buffers, at a capacity that holds both and at one that doesn't.
pub fn ring_plans_are()
    ensures { RingPlansAre }
{}

/// The plans of tiles that are stored to only: doubled outward, but not where the loop reads the memref besides.
pub fn outward_plans_are()
    ensures { OutwardPlansAre }
{}
