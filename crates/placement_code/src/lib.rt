//! The statements of a placement's template, and the accesses of its memref redirected to fast memory.
//!
//! They are the lists of `placement_lists`, `specs/Statements`, which are the template of `placement_texts`.
#![tactic(auto)]

mod accesses;
mod placement;
mod places;
mod redirects;
mod statements;
mod sums;
mod transfers;

pub use placement::{Dimension, How, Placement};
pub use redirects::{in_fast, load_in_fast, store_in_fast};
pub use transfers::{before, behind};
