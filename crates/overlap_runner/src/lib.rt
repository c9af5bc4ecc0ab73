//! A module run by a compute thread with engines beside it: slow memory in the words of a bus, halves that move to engines and
//! back.
//!
//! `prepare` takes all the memory of a run; `Prepared::run` takes none. The compute thread walks the actions of the module, with
//! the registers of `run_parts` and the memory of `overlap_memory`; engine 0 is this thread while it waits, the others are
//! threads of their own. Whatever they do, a run that returns has the verdict and the slow memory of the prompt meaning. Behind
//! the last action, and behind a fault, every transfer that is outstanding is served and taken back before the words are read.
#![tactic(auto)]

mod device;
mod places;
mod prepared;
mod run;

pub use prepared::{Prepared, prepare};
