//! The test that a region makes of the intervals of its templates is the rule on intervals (V9), asked of the module with this placement
//! alone. `specs/Law` has the box before the test; a law says that the box is the region exactly where the module with the template
//! round the loop keeps to the rule, and that there is no region, for its coefficients, where it doesn't.
#![tactic(auto)]

ghost use Rattle.interval_tests.specs.Law.{TestIsRule, RefusedBefore};
ghost use Rattle.interval_tests.specs.Planned.{PlanTestIsRule};

/// The box is the region where the module with this placement alone keeps to the rule on intervals, and otherwise its cause is `coefficient`.
pub fn test_is_rule()
    ensures { TestIsRule }
{}

/// What refuses a box before the test refuses the region.
pub fn refused_before()
    ensures { RefusedBefore }
{}

/// So it is of the placements that a plan makes, in every valid module whose names are a text's.
pub fn plan_test_is_rule()
    ensures { PlanTestIsRule }
{}
