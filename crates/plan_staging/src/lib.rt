//! The module that has the placements of its plan, in code: from the plan's decisions to placements, and these staged in the text.
//!
//! Which module that is says `plan_theorem`, `specs/Law`, `IsStagedModule`; that it is valid and runs as the module, the law there.
//! `copy_emit` and `dma_emit` give it under their names, for plans with copy loops and with transfers.
#![tactic(auto)]

ghost use Rattle.plan_staging.specs.Law.{PlansSayPlacements};

mod placed;
mod staged;

pub use staged::staged_by;

/// The decisions of each plan say its placements.
pub fn plans_say_placements()
    ensures { PlansSayPlacements }
{}
