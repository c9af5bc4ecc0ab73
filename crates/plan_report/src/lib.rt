//! The report of a plan: what becomes of each memref in each block.
//!
//! `specs/Report` says what it is, line by line. The crate stands on the types of a plan in `nest_domain`.
#![tactic(auto)]

mod amounts;
mod depths;
mod lines;

pub use lines::report;
