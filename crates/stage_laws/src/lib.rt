//! The module that staging makes of a module, without doubling: the placements of its plan, subscripts as the grammar reads them, and
//! numbered names; and the law that it is valid and runs as the module.
#![tactic(auto)]

ghost use Rattle.stage_laws.specs.Law.{AllHaveStages, StageRuns, TextsStage};

/// So is it for every valid module that meets V13 and has the names of a text, every option and every memory that fits.
pub fn stage_runs()
    ensures { StageRuns }
{}

/// So for every module that a text spells.
pub fn texts_stage()
    ensures { TextsStage }
{}

/// Every module has one.
pub fn all_have_stages()
    ensures { AllHaveStages }
{}
