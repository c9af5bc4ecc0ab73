//! The direct meaning of a module, run: `run_plain` does to a memory what the module says, action by action.
//!
//! The actions come from the walk of `nest_walk`, and `run_parts` reads their operands. A machine holds the values of names and the
//! slow memory and takes one action after the other as `direct_meaning`, `specs/Direct`, says, so the verdict and the memory are those
//! of that meaning, at a fault too. All memory is taken before the first action. That machine words suffice is the laws of `valid_laws` and `run_laws`. `work` of
//! `module_work` is passed on.
#![tactic(auto)]

mod machine;
mod plain;

pub use module_work::work;
pub use plain::run_plain;
