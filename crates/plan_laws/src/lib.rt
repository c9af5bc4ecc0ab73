//! The plan of a module: which memrefs are staged where, and why others are left.
//!
//! `specs/Plan` has the plan as a fold over the memrefs of each block, which carries the placements so far; the text so far is the
//! module's with these. What a placement is, its region, its cover and its transfer, is said in `placement_regions`, `placement_covers`
//! and `staged_plans`; the crate stands on these, on the rewriting of `placement_texts` and on the peak of `peak_laws`.
#![tactic(auto)]

ghost use Rattle.plan_laws.specs.Law.{PlacementsAreSited, PlansKeepWithin, SizeComesSecond};
ghost use Rattle.plan_laws.specs.Sites.{LoopsAreNamed};

/// The text with a plan's placements keeps to the rule on intervals, within the capacity and to the limits, each where the module does.
pub fn plans_keep_within()
    ensures { PlansKeepWithin }
{}

/// A placement is refused for its size only where the capacity holds it.
pub fn size_comes_second()
    ensures { SizeComesSecond }
{}

/// A placement is hoisted past no access of its memref outside the block, and has the region of its loop.
pub fn placements_are_sited()
    ensures { PlacementsAreSited }
{}

/// The path of a loop names it.
pub fn loops_are_named()
    ensures { LoopsAreNamed }
{}
