//! The paths of the loops at a depth of a text, with those of the loops round each, in code.
//!
//! The places are those of `plan_laws`, `specs/Sites`; `specs/Found` has them as paths. The path of a loop round another is a beginning
//! of the other's path, so only its length is kept.
#![tactic(auto)]

ghost use Rattle.loop_paths.specs.Law.{BeginningsAreLoops, BeginningsArePaths, PathsAreSpots};

mod paths;

pub use paths::{LoopPath, loops_at, shortened};

/// The path of a place names the place.
pub fn paths_are_spots()
    ensures { PathsAreSpots }
{}

/// The beginnings of a loop's path that are kept are the paths of the loops round it, from the outside in.
pub fn beginnings_are_paths()
    ensures { BeginningsArePaths }
{}

/// So they name these loops.
pub fn beginnings_are_loops()
    ensures { BeginningsAreLoops }
{}
