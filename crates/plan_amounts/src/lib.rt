//! The bytes of each box of a plan are a number of 64 bits, as the report of a plan asks.
#![tactic(auto)]

ghost use Rattle.plan_amounts.specs.Law.{PlansAreReportable};

/// So the report of the plan of each valid module can be written.
pub fn plans_are_reportable()
    ensures { PlansAreReportable }
{}
