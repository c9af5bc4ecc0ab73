//! A walk over a module: its actions, one after the other, from the index arguments alone.
//!
//! `Walk::new` takes all the memory that a walk needs; `Walk::next` takes none, looks no name up by its text, and gives
//! exactly the actions that `direct_meaning` says a module has. The crate stands on `walk_program` for the module with
//! numbers for its names, on `walk_actions` for the action of each plain statement, and on `valid_laws` for the premise
//! that every number on the way fits.
#![tactic(auto)]

mod arguments;
mod frame;
mod moves;
mod position;
mod rooms;
mod walk;

pub use walk::Walk;
