//! The blocks that code finds, and their memrefs, are those of the plan.
//!
//! `text_places` gives the loops at a depth with the way to each, and the memrefs that one accesses; `plan_laws` has their places, and
//! the memrefs by first access. The crate has laws alone.
#![tactic(auto)]

ghost use Rattle.plan_blocks.specs.Law.{BlocksAreLoops, MemrefsAreFirsts};

/// The blocks of a text are the loops at the plan's places, in the same order, each with the way to its place.
pub fn blocks_are_loops()
    ensures { BlocksAreLoops }
{}

/// Where V13 holds, each block has the memrefs that the plan asks about, in the same order.
pub fn memrefs_are_firsts()
    ensures { MemrefsAreFirsts }
{}
