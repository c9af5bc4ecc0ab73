// Where a memref of a block is staged: at the block's loop, or at a loop round it.
ghost use Rattle.std.specs.Prelude.{◌≡◌, IfOk};
ghost use Rattle.affine_ast.specs.declared.types.MemrefType.{MemrefType as TheType};
ghost use Rattle.placement_stage.specs.Places.{spot_of};
ghost use Rattle.text_places.specs.Finding.{block_of};
ghost use Rattle.access_region.specs.Faults.{Meets};
ghost use Rattle.access_region.specs.Regions.{outside_at};
ghost use Rattle.plan_laws.specs.Plan as plan;
ghost use Rattle.plan_laws.specs.Plan.{same_extents};
ghost use Rattle.plan_laws.specs.Sites.{loops_round};
ghost use Rattle.hoisted_sites.specs.Sites.{IsLoopPath, StandsAt};
ghost use Rattle.hoisted_sites.specs.Hoisting.{module_of, text_of, IsSite, IsSiteAt, IsFurther, IsBlock, IsRound, IsSiteFor, site_of, hoisted_from};

use crate::accesses::are_accessed;
use crate::standing::{Asking, uses_of};
use access_region::{Outside, RegionFault};
use affine_ast::{MemrefType, Name, Path};
use loop_paths::{LoopPath, beginnings_are_loops, beginnings_are_paths, shortened};
use nest_domain::{Cause, Region, RegionDim};
use std::alloc::{AllocError, Global};
use text_places::{FoundBlock, FoundUse};

/// A memref and its type, with the number of its accesses in the block.
#[derive(Clone, Copy)]
pub struct Sought<'a> {
    pub memref: &'a Name,
    pub ty: &'a MemrefType,
    pub count: usize,
}

/// A loop at which a memref has a region, with its accesses there.
#[derive(Drop)]
pub struct Site<'a> {
    pub at: Path,
    /// How many loops stand round the loop.
    pub place: usize,
    pub uses: Vec<FoundUse<'a>>,
    pub region: Region,
}

/// Whether two boxes have the same extents.
#[tactic(auto, using(crate::proofs::Arguments::other_lengths))]
fn same_extents(left: &[RegionDim], right: &[RegionDim]) -> bool
    ensures { result ≡ same_extents left.now right.now }
{
    if left.len() != right.len() {
        return false;
    }
    for (place, dim) in left.iter().enumerate() {
        let other = &right[place];
        if dim.extent != other.extent {
            return false;
        }
    }
    true
}

/// The same of regions.
fn alike(left: &Region, right: &Region) -> bool
    ensures { result ≡ same_extents left.now right.now }
{
    same_extents(left.dims.as_slice(), right.dims.as_slice())
}

/// The memref at the loop that a path names, where it has a region there: the loop and its outside are given.
fn site_at<'a>(
    alloc: Global,
    asking: &Asking<'a>,
    sought: Sought<'a>,
    at: Path,
    place: usize,
    block: &FoundBlock<'a>,
    outside: &Result<Outside, RegionFault>,
) -> Result<Result<Site<'a>, Cause>, AllocError>
    requires path { IsLoopPath (text_of asking.now) at }
    requires block { StandsAt (text_of asking.now) (spot_of at.steps) (block_of block.now) }
    requires outside { Meets (outside_at (module_of asking.now).args (block_of block.now).way) (λ o. o) outside.now }
    ensures { IfOk result (λ found. IsSiteAt asking.now sought.entry at place found) }
{
    let uses = uses_of(alloc, sought.memref, block)?;
    let sizes = sought.ty.sizes.as_slice();
    match asking.region(alloc, block, outside, sought.memref, &uses, sizes)? {
        Ok(region) => Ok(Ok(Site {
            at,
            place,
            uses,
            region,
        })),
        Err(cause) => Ok(Err(cause)),
    }
}

/// The same memref at a loop further out, where that has no more accesses of it, and a region of the same extents.
fn further_out<'a>(
    alloc: Global,
    asking: &Asking<'a>,
    sought: Sought<'a>,
    region: &Region,
    at: Path,
    place: usize,
) -> Result<Option<Site<'a>>, AllocError>
    requires path { IsLoopPath (text_of asking.now) at }
    ensures { IfOk result (λ found. (from : plan.Site) → from.region ≡ region.now → IsFurther asking.now sought.entry from at place found) }
{
    let block = asking.block(alloc, &at)?;
    if !are_accessed(sought.memref, block.body, sought.count) {
        return Ok(None);
    }
    let outside = asking.outside(alloc, &block);
    match site_at(alloc, asking, sought, at, place, &block, &outside)? {
        Ok(site) => {
            if alike(region, &site.region) {
                Ok(Some(site))
            } else {
                Ok(None)
            }
        }
        Err(_) => Ok(None),
    }
}

/// From a site at the block outward, loop by loop.
fn hoisted<'a>(
    alloc: Global,
    asking: &Asking<'a>,
    sought: Sought<'a>,
    block: &LoopPath,
    start: Site<'a>,
) -> Result<Site<'a>, AllocError>
    requires block { IsBlock (text_of asking.now) block.now }
    requires start { IsSite asking.now sought start }
    requires place { IsRound (text_of asking.now) (spot_of block.now.at.steps) start }
    ensures site { IfOk result (λ site. IsSite asking.now sought.entry site) }
    ensures place { IfOk result (λ site. IsRound (text_of asking.now) (spot_of block.now.at.steps) site) }
    ensures hoisted { IfOk result (λ site. site_of site ≡ hoisted_from asking.now sought.entry (loops_round (spot_of block.now.at.steps) (text_of asking.now)) (site_of start.entry)) }
{
    beginnings_are_loops();
    beginnings_are_paths();
    let mut site = start;
    let round = block.round.as_slice();
    let mut left = round.len();
    while left > 0 {
        left -= 1;
        let at = shortened(alloc, &block.at, round[left])?;
        let found = further_out(alloc, asking, sought, &site.region, at, left)?;
        match found {
            Some(further) => site = further,
            None => return Ok(site),
        }
    }
    Ok(site)
}

/// Where a memref of this type that is accessed in a block may be staged, or the cause against a region of it at the block. The block's
/// loop and its outside, which all memrefs of the block share, are given.
///
/// # Errors
///
/// `AllocError`, for want of memory alone.
pub fn site_for<'a>(
    alloc: Global,
    asking: &Asking<'a>,
    memref: &'a Name,
    ty: &'a MemrefType,
    path: &LoopPath,
    block: &FoundBlock<'a>,
    outside: &Result<Outside, RegionFault>,
) -> Result<Result<Site<'a>, Cause>, AllocError>
    requires path { IsBlock (text_of asking.now) path.now }
    requires block { StandsAt (text_of asking.now) (spot_of path.now.at.steps) (block_of block.now) }
    requires outside { Meets (outside_at (module_of asking.now).args (block_of block.now).way) (λ o. o) outside.now }
    ensures { IfOk result (λ found. IsSiteFor asking.now memref.now ty.now (spot_of path.now.at.steps) found) }
{
    let at = path.at.copy(alloc)?;
    let place = path.round.as_slice().len();
    let first = Sought {
        memref,
        ty,
        count: 0,
    };
    let start = match site_at(alloc, asking, first, at, place, block, outside)? {
        Ok(start) => start,
        Err(cause) => return Ok(Err(cause)),
    };
    let sought = Sought {
        memref,
        ty,
        count: start.uses.as_slice().len(),
    };
    Ok(Ok(hoisted(alloc, asking, sought, path, start)?))
}
