//! Validity of a plan's texts: a plan tests V9, V11 and V12 of the module with each placement more; the other rules hold by
//! themselves.
#![tactic(auto)]

ghost use Rattle.plan_validity.specs.Law.{PlansPass, StagedAgrees, StagedIsValid};

/// Each text on the way breaks no rule, where it breaks none of those that a plan tests.
pub fn plans_pass()
    ensures { PlansPass }
{}

/// A module with all placements of a plan is valid.
pub fn planned_is_valid()
    ensures { StagedIsValid }
{}

/// Its prompt meaning has the verdict of the direct meaning of the module without them, and at the end its slow memory.
pub fn planned_agrees()
    ensures { StagedAgrees }
{}
