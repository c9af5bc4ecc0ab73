//! What `stage` writes of a module is decided by the module and the options.
//!
//! Laws alone: a module has one stage; the report of its plan has a line for each memref of each block, in text order; and a report is
//! lines of comments, so that a text behind it is read as before. The crate stands on the plan, its report and the stage of a module.
#![tactic(auto)]

ghost use Rattle.stage_reports.specs.Law.{HasOneStage, PlanIsComplete, ReportIsComments};

/// Two stages of a module under the same options are one.
pub fn one_stage()
    ensures { HasOneStage }
{}

/// Each memref of each block has its decision, and no other has one.
pub fn plan_is_complete()
    ensures { PlanIsComplete }
{}

/// The report of any decisions on a module that a text spells is lines of comments.
pub fn report_is_comments()
    ensures { ReportIsComments }
{}
