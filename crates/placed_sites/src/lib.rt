//! The placement of a memref at its site: its box, whether it is read in and written out, and how many loops and conditions stand round it.
//!
//! The placement is that of `plan_laws`, `specs/Plan`: `placement_at`. The crate stands on the sites of `hoisted_sites`, the cover of
//! `access_region` and the placements of `planned_placements`.
#![tactic(auto)]

mod placing;

pub use placing::{Candidate, as_number, placed_at};
