//! The plan of a module as code makes it: without the test on intervals, memref by memref, with tests that speak of the module's own loops.
//!
//! The plan is that of `plan_laws`, `specs/Plan`, and the one without the test that of `placed_intervals`, `specs/Untested`. The crate has
//! laws alone.
#![tactic(auto)]

ghost use Rattle.untested_plans.specs.Law.{PlanIsUntested, PlacementsStandAside};

/// The plan is what it is without the test, whatever the lines of the module.
pub fn plan_is_untested()
    ensures { PlanIsUntested }
{}

/// The placements before a memref in a block leave its site alone.
pub fn placements_stand_aside()
    ensures { PlacementsStandAside }
{}
