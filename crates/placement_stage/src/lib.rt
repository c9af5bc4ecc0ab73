//! A module with one placement more, in code: the template stands round the placement's loop, and in the loop the accesses of the memref
//! are of the fast memref.
//!
//! The texts are those of `placement_texts`, `specs/Spots`. A module is taken apart on the way to the loop and put together again, so
//! statements aside from the loop are moved, and only those in it are copied.
#![tactic(auto)]

ghost use Rattle.placement_stage.specs.Law.{ValidTextsAreSmall};

mod all;
mod parts;
mod redirect;
mod stage;

pub use all::{PlacedAt, stage_all, steps_are_staged};
pub use stage::{stage_one, stage_text};

/// In a valid module each subscript that is a number alone is small, so it may be redirected.
pub fn valid_texts_are_small()
    ensures { ValidTextsAreSmall }
{}
