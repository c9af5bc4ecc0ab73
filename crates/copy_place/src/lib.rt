//! Where copies stand: the plan of a module, and the peak of its text.
//!
//! The plan is that of `plan_laws`, `specs/Plan`, and the peak that of `peak_laws`, `specs/Peak`. The sites of a block's memrefs come from
//! `hoisted_sites`, the tests of a placement from `plan_tests`.
#![tactic(auto)]

mod blocks;
mod bytes;
mod settle;

pub use blocks::plan;
pub use bytes::peak;
