//! Runs of parts: a run of actions, and the run in which boxes of memrefs are staged in fast memory round loops.
//!
//! No syntax is involved: both runs are readings of one list of parts. The crate stands on `direct_meaning` and
//! `prompt_semantics`.
#![tactic(auto)]

ghost use Rattle.box_run_laws.specs.Law.{PlacementsAgree, CapacityKept, LiveKnown, StagingAgrees};

/// A run in which placements are added, by copy loops, or by transfers with a wait each, has the
/// verdict of the run without them, and at the end its slow memory.
pub fn placements_agree()
    ensures { PlacementsAgree }
{}

/// A run whose live bytes don't pass the capacity is the run without a bound.
pub fn capacity_kept()
    ensures { CapacityKept }
{}

/// The most live bytes of a run are known from its list of actions.
pub fn live_known()
    ensures { LiveKnown }
{}

/// Placements may be added one after the other: at a capacity that its live bytes don't pass, the last run has the verdict of
/// the direct meaning that stood first, and at the end its slow memory.
pub fn staging_agrees()
    ensures { StagingAgrees }
{}
