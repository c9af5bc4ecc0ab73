//! One placement staged, as a run: the two texts' lists of actions are two readings of one list of parts, which run to the same
//! end. The crate joins `placement_texts` and `box_run_laws`.
#![tactic(auto)]

ghost use Rattle.staging_laws.specs.Law.{OneAgrees, PlanAgrees};

/// With one placement more, by copy loops or by transfers, the prompt run of a text without bound has the same verdict, and at
/// the end the same slow memory.
pub fn one_agrees()
    ensures { OneAgrees }
{}

/// With all placements of a plan, at a capacity that the live bytes don't pass, the prompt run has the verdict of the direct
/// meaning of the text without any, and at the end its slow memory.
pub fn plan_agrees()
    ensures { PlanAgrees }
{}
