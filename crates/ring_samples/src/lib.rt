//! Rings worked through: one placement copied in and out, one copied out, and three in one loop, for any number of buffers.
//!
//! Each function is a law; it does nothing.
#![tactic(auto)]

ghost use Rattle.ring_samples.specs.Law.{CopiedIsRing, OutwardIsRing, MixedIsRing, CopiedRuns, RingsAreWorked};

/// What the law of a ring asks is met by each of the three.
pub fn rings_are_kept()
    ensures copied { CopiedIsRing }
    ensures outward { OutwardIsRing }
    ensures mixed { MixedIsRing }
{}

/// Both runs of the first one end alike.
pub fn copied_runs()
    ensures { CopiedRuns }
{}

/// Four turns of each, computed.
pub fn rings_are_worked()
    ensures { RingsAreWorked }
{}
