// What a memref in a block becomes.
ghost use Rattle.std.specs.Prelude.{◌≡◌, IfOk, None, Some};
ghost use Rattle.affine_ast.specs.PlainLimits.{plain_fault};
ghost use Rattle.nest_domain.specs.declared.plan.Doubling.TheVariants as doubling;
ghost use Rattle.nest_domain.specs.declared.plan.Outcome.TheVariants as outcome;
ghost use Rattle.access_region.specs.Faults.{Meets};
ghost use Rattle.access_region.specs.Regions.{outside_at};
ghost use Rattle.placement_stage.specs.Places.{spot_of};
ghost use Rattle.text_places.specs.Finding.{block_of};
ghost use Rattle.plan_laws.specs.Plan.{type_of};
ghost use Rattle.plan_tests.specs.Testing.{AreFew};
ghost use Rattle.hoisted_sites.specs.Sites.{StandsAt};
ghost use Rattle.hoisted_sites.specs.Hoisting.{module_of, text_of, IsBlock, IsHoisted};
ghost use Rattle.copy_place.specs.Planning.{TriesSite, Decides};

use access_region::{Outside, RegionFault};
use affine_ast::{MemrefType, Name};
use hoisted_sites::{Asking, Site, site_for, type_of};
use loop_paths::LoopPath;
use nest_domain::{Cause, Doubling, Outcome};
use placed_sites::{Candidate, placed_at};
use plan_tests::Tests;
use std::alloc::{AllocError, Global};
use text_limits::planned_are_described;
use text_places::FoundBlock;

/// What is decided of a placement that no test refuses.
fn staged(made: Candidate<'_>) -> Outcome
    ensures { result ≡ outcome.Staged made.entry.site.at made.entry.site.region made.entry.placed.reads made.entry.placed.writes doubling.NotAsked }
{
    let (reads, writes) = (made.placed.reads, made.placed.writes);
    let site = made.site;
    Outcome::Staged {
        at: site.at,
        region: site.region,
        reads,
        writes,
        doubling: Doubling::NotAsked,
    }
}

/// A memref is staged at its site, where the tests don't refuse it.
fn tried<'a>(
    alloc: Global,
    asking: &Asking<'a>,
    memref: &Name,
    ty: &MemrefType,
    path: &LoopPath,
    site: Site<'a>,
    tests: &mut Tests,
) -> Result<Outcome, AllocError>
    requires plain { plain_fault (module_of asking.now) ≡ None }
    requires typed { type_of (module_of asking.now).args memref.now ≡ Some ty.now }
    requires site { IsHoisted asking.now memref.now ty.now (spot_of path.now.at.steps) site }
    requires few { AreFew tests.old }
    ensures tried { IfOk result (λ outcome. TriesSite asking.now memref.now ty.now (spot_of path.now.at.steps) site.entry tests.old outcome tests.new) }
    ensures few { AreFew tests.new }
{
    planned_are_described();
    let made = placed_at(alloc, asking, memref, ty, site, tests.number())?;
    let uses = made.site.uses.as_slice();
    match tests.tried(alloc, &made.placed, made.site.place, made.round, uses)? {
        Some(cause) => Ok(Outcome::Left(cause)),
        None => Ok(staged(made)),
    }
}

/// What a memref that is accessed in a block becomes. The block's loop and its outside are given.
pub(crate) fn decided<'a>(
    alloc: Global,
    asking: &Asking<'a>,
    memref: &'a Name,
    path: &LoopPath,
    block: &FoundBlock<'a>,
    outside: &Result<Outside, RegionFault>,
    tests: &mut Tests,
) -> Result<Outcome, AllocError>
    requires plain { plain_fault (module_of asking.now) ≡ None }
    requires path { IsBlock (text_of asking.now) path.now }
    requires block { StandsAt (text_of asking.now) (spot_of path.now.at.steps) (block_of block.now) }
    requires outside { Meets (outside_at (module_of asking.now).args (block_of block.now).way) (λ o. o) outside.now }
    requires few { AreFew tests.old }
    ensures decided { IfOk result (λ outcome. Decides asking.now memref.now (spot_of path.now.at.steps) tests.old outcome tests.new) }
    ensures few { AreFew tests.new }
{
    let verified = asking.verified;
    let Some(ty) = type_of(verified.module().args.as_slice(), memref) else {
        return Ok(Outcome::Left(Cause::Region));
    };
    match site_for(alloc, asking, memref, ty, path, block, outside)? {
        Ok(site) => tried(alloc, asking, memref, ty, path, site, tests),
        Err(cause) => Ok(Outcome::Left(cause)),
    }
}
