//! The prompt meaning of a module, run: `run_prompt` does to a memory what the module says, each transfer completed at its start.
//!
//! An executor over the walk of `nest_walk`, with the registers of `run_parts`. It holds the slow memory, the cells of each fast
//! memref, a half behind the other, and the records of the outstanding transfers, and takes one action after the other as
//! `prompt_semantics`, `specs/Prompt`, says. A half is away while a record names it, so no action's time grows with the tags that are
//! idle. All memory is taken before the first action; that it suffices, and that machine words do, are the laws of `prompt_laws`.
#![tactic(auto)]

mod device;
mod fast;
mod prompt;

pub use prompt::{Prompt, run_prompt};
