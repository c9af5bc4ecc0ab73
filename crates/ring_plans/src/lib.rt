//! The plan of a module with doubling: which placements get a ring of several buffers, so that their transfers stay under way during
//! other turns, and why others stay single; and the text that has the rings.
//!
//! `specs/Rings` rewrites a loop of the text with single placements, for any number of buffers, inward and outward; `specs/Plan` has
//! the part of the plan on doubling, as a fold over the loops in the order in which they end. The crate stands on the plan without
//! doubling of `plan_laws`, on the three loops of `loop_forms` and on the clash of `dependence`.
#![tactic(auto)]

ghost use Rattle.ring_plans.specs.Law.{LoopsEndInOrder, PlacementsStay, PlainPlansStay, RingsKeepWithin, RingsStandApart};

/// The text with a plan's rings keeps to the rule on intervals, within the capacity and to the limits, each where the module does.
pub fn rings_keep_within()
    ensures { RingsKeepWithin }
{}

/// Doubling changes no decision but by its word on doubling.
pub fn placements_stay()
    ensures { PlacementsStay }
{}

/// Where doubling isn't asked for, the plan and its text are those without it.
pub fn plain_plans_stay()
    ensures { PlainPlansStay }
{}

/// No loop with rings lies in another one.
pub fn rings_stand_apart()
    ensures { RingsStandApart }
{}

/// Of the loops as they end none lies in an earlier one.
pub fn loops_end_in_order()
    ensures { LoopsEndInOrder }
{}
