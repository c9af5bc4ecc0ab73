//! Laws of the runs of a valid module by its prompt meaning: what an executor may rely on at each action, that the memory fits the
//! module again, and that the steps are no more than the work.
//!
//! `run_prompt`, the machine of all orders and the runner cite them. The crate stands on `prompt_semantics` and on the laws of valid
//! modules.
#![tactic(auto)]

ghost use Rattle.prompt_laws.specs.Law.{PromptIsDirect, ValidRunsPromptly};

/// From every memory that fits a valid module, for every filler and capacity: each action that the run comes to reaches slow places
/// within the slow list and fast places within halves that were allocated, with operands in the ranges of their types; behind the run,
/// at its end or at its fault, the memory fits the module again; and its actions with the steps of engines are no more than its work.
pub fn valid_runs_promptly()
    ensures { ValidRunsPromptly }
{}

/// Where a valid module has no allocation, dealloc, start and wait, the prompt meaning ends as the direct one does and leaves the same
/// memory, for every filler and capacity.
pub fn prompt_is_direct()
    ensures { PromptIsDirect }
{}
