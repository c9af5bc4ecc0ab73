//! The rule on intervals (V9) in the texts of a plan. A region is found only where the intervals of its templates stay within the limits, as
//! the module's own text has them. `specs/Fits` says what a template asks of the intervals at its loop, in any text; the laws say that this
//! holds in each text on the way of a plan, so that no placement breaks the rule.
#![tactic(auto)]

ghost use Rattle.placed_intervals.specs.Law.{OneMoreKeepsIntervals, PlacedKeepIntervals};
ghost use Rattle.placed_intervals.specs.Untested.{PlanNeedsNoTest};

/// A valid module keeps to the rule with all placements of regions.
pub fn placed_keep_intervals()
    ensures { PlacedKeepIntervals }
{}

/// So it does with each of them.
pub fn one_more_keeps_intervals()
    ensures { OneMoreKeepsIntervals }
{}

/// The plan's own test of the rule refuses nothing: without it the plan is the same.
pub fn plan_needs_no_test()
    ensures { PlanNeedsNoTest }
{}
