//! The law of staging: a module with all placements of a plan runs, by its prompt meaning at any capacity from its peak on, to the
//! verdict of the direct meaning of the module without them, and at the end to its slow memory.
#![tactic(auto)]

ghost use Rattle.staging_theorem.specs.Law.{StagedRuns};

/// So it is for every valid module that meets V13, every plan of it and every memory that fits.
pub fn staged_runs()
    ensures { StagedRuns }
{}
