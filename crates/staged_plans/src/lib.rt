//! Plans: a valid module that meets V13, with all placements of a plan staged one after the other, runs to the end of its direct
//! meaning. `specs/Plans` says what a plan's placements are, in numbers and names alone.
#![tactic(auto)]

ghost use Rattle.staged_plans.specs.Law.{PlansAgree};

/// The staged text has the verdict of the module's direct meaning, and at the end its slow memory.
pub fn plans_agree()
    ensures { PlansAgree }
{}
