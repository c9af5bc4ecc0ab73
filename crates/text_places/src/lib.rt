//! What stands in a text, with the way to it: the accesses of a memref, and the loops at a depth.
//!
//! The definitions are `uses` of `nest_domain` and `blocks`; what is found is exactly their lists, in text order.
#![tactic(auto)]

mod blocks;
mod memrefs;
mod plain;
mod way;
mod within;

ghost use Rattle.text_places.specs.Ready.{TextsAreReady};

pub use blocks::{FoundBlock, blocks_at};
pub use memrefs::{Named, accessed_in};
pub use plain::{FoundUse, same};
pub use way::copied_way;
pub use within::uses_within;

/// In a valid module the rows of each place can be formed.
pub fn texts_are_ready()
    ensures { TextsAreReady }
{}
