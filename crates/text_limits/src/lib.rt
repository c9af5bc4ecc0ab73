//! The limits that a plan asks of each text, as sums over its statements: so they can be told of a text with one placement more from
//! the sums so far and the placement alone.
//!
//! The limits are those of `plan_laws`, `specs/Limits`; `specs/Sums` has the sums, and `specs/Adding` those of a text with one placement
//! more.
#![tactic(auto)]

ghost use Rattle.text_limits.specs.Adding.{OperandsGrow, PlacementsAddSums, UsesAreAccesses};
ghost use Rattle.text_limits.specs.Capped.{LimitsAreTold};
ghost use Rattle.text_limits.specs.Leaving.{PlacementsLeave, PlannedAreDescribed, RoundsAreCounted};
ghost use Rattle.text_limits.specs.Lessening.{RedirectsAreCounted};
ghost use Rattle.text_limits.specs.Sums.{LimitsAreSums};
ghost use Rattle.text_limits.specs.Telling.{PlacementsAreTold};

mod measures;
mod redirects;
mod sums;

pub use sums::{Round, Sums, sums_of};

/// A text keeps to the limits where its sums are within them: prefix sums only grow.
pub fn limits_are_sums()
    ensures { LimitsAreSums }
{}

/// One placement more adds the sums of its template, and what the redirected accesses have more.
pub fn placements_add_sums()
    ensures { PlacementsAddSums }
{}

/// A redirected access has no fewer operands.
pub fn operands_grow()
    ensures { OperandsGrow }
{}

/// What it has more is told without making it.
pub fn redirects_are_counted()
    ensures { RedirectsAreCounted }
{}

/// The redirected accesses are the loads and stores among the uses of the memref.
pub fn uses_are_accesses()
    ensures { UsesAreAccesses }
{}

/// Placements of other memrefs, or at loops apart, leave a loop its place and the memref its accesses there.
pub fn placements_leave()
    ensures { PlacementsLeave }
{}

/// So a loop of a module is described in each text of a plan whose placements leave it alone.
pub fn planned_are_described()
    ensures { PlannedAreDescribed }
{}

/// The steps of its path count the loops and conditions round it.
pub fn rounds_are_counted()
    ensures { RoundsAreCounted }
{}

/// The limits are told alike of sums that stop at the greatest number of 64 bits.
pub fn limits_are_told()
    ensures { LimitsAreTold }
{}

/// So are the sums with one placement more.
pub fn placements_are_told()
    ensures { PlacementsAreTold }
{}
