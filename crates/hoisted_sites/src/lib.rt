//! Where the memrefs of a block are staged, before any test: the region of a memref at the block's loop, and the loop to which it is
//! hoisted, with the accesses of the memref there.
//!
//! The definitions are those of `plan_laws`, `specs/Plan`: `region_at` and `hoisted`. The crate stands on the regions of
//! `access_region` and the paths of `loop_paths`.
#![tactic(auto)]

mod accesses;
mod hoisting;
mod standing;

pub use accesses::{are_accessed, argument_number, has_store, type_of};
pub use hoisting::{Site, Sought, site_for};
pub use standing::{Asking, uses_of};
