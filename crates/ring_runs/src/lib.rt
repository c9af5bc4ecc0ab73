//! A loop whose transfers go round a ring of buffers: inward ones start some turns ahead, outward ones are waited for some
//! turns later.
//!
//! Definitions and the law that the loop's run, each turn with its own transfers, and the run round the ring end alike, for any
//! number of buffers and of placements.
#![tactic(auto)]

ghost use Rattle.ring_runs.specs.Law.{RingAgrees};

/// A loop of turns, each of which starts its transfers and waits for them, and the three loops that start them ahead end alike.
pub fn ring_agrees()
    ensures { RingAgrees }
{}
