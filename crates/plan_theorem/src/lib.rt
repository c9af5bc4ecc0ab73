//! The law of staging, of the plan: the placements of a module's plan are a plan of it as the law of staging asks for one, and so the
//! module with all of them is valid and runs, by its prompt meaning in the options' capacity, to the verdict of the module's direct
//! meaning and at the end to its slow memory.
#![tactic(auto)]

ghost use Rattle.plan_theorem.specs.Law.{PlansArePlans, PlanRuns};

/// So are the placements of each plan.
pub fn plans_are_plans()
    ensures { PlansArePlans }
{}

/// So does each module that meets V13 run, staged by its plan.
pub fn plan_runs()
    ensures { PlanRuns }
{}
