// The loop at a path of a module, its outside, and the region of a memref there.
ghost use Rattle.std.specs.Prelude.{◌≡◌, List, Result, map, IfOk};
ghost use Rattle.std.specs.Option.{option_map};
ghost use Rattle.nest_domain.specs.Boxes.{Dimension};
ghost use Rattle.nest_domain.specs.Steps.{header_of, spot_of as way_of};
ghost use Rattle.placement_stage.specs.Places.{spot_of};
ghost use Rattle.text_places.specs.Finding.{block_of, seen};
ghost use Rattle.access_region.specs.Finding.{loop_at, uses_in, region_in};
ghost use Rattle.access_region.specs.Faults.{NoRegion, Meets};
ghost use Rattle.access_region.specs.Regions.{outside_at};
ghost use Rattle.hoisted_sites.specs.Sites.{IsLoopPath, StandsAt, StandsIn, by_cause};
ghost use Rattle.hoisted_sites.specs.Hoisting.{module_of, text_of};

use access_region::{Outside, RegionFault, outside_of, region_of_uses};
use affine_ast::{Name, Path, Verified, What};
use name_hash::NameHashing;
use nest_domain::{Cause, Found, Options, Region, Step, way_to};
use std::alloc::{AllocError, Global};
use text_places::{FoundBlock, FoundUse, copied_way, uses_within};

/// The module that is planned, with the hashing of its names, and what is asked of the plan.
#[derive(Clone, Copy)]
pub struct Asking<'a> {
    pub hashing: NameHashing,
    pub verified: &'a Verified,
    pub options: Options,
}

/// The loop that was found.
#[tactic(auto, using(crate::proofs::Stands::no_statement, crate::proofs::Stands::loop_there, crate::proofs::Stands::no_loop_there))]
fn loop_of(found: Found<'_>) -> Option<FoundBlock<'_>>
    ensures { option_map block_of result ≡ loop_at (way_of found.entry) }
{
    let Some(first) = found.here.first() else {
        return None;
    };
    match &first.what {
        What::For {
            var,
            lower,
            upper,
            step,
            body,
        } => Some(FoundBlock {
            way: found.way,
            line: first.line,
            var,
            lower,
            upper,
            step: *step,
            body: body.as_slice(),
        }),
        _ => None,
    }
}

/// A region, or the cause for which there is none; want of memory is neither.
fn sought(found: Result<Region, RegionFault>) -> Result<Result<Region, Cause>, AllocError>
    ensures { (wanted : Result (List Dimension) NoRegion) → Meets wanted (λ region. region) found → IfOk result (λ r. by_cause wanted ≡ r) }
{
    match found {
        Ok(region) => Ok(Ok(region)),
        Err(RegionFault::Region) => Ok(Err(Cause::Region)),
        Err(RegionFault::Coefficient) => Ok(Err(Cause::Coefficient)),
        Err(RegionFault::Rows) => Ok(Err(Cause::Rows)),
        Err(RegionFault::Memory) => Err(AllocError),
    }
}

impl<'a> Asking<'a> {
    /// The loop that a path names.
    pub fn block(&self, alloc: Global, at: &Path) -> Result<FoundBlock<'a>, AllocError>
        requires path { IsLoopPath (text_of self.now) at.now }
        ensures { IfOk result (λ b. StandsAt (text_of self.now) (spot_of at.now.steps) (block_of b)) }
    {
        let verified = self.verified;
        let module = verified.module();
        let Some(found) = way_to(alloc, module.body.as_slice(), at)? else {
            return Err(AllocError);
        };
        let Some(block) = loop_of(found) else {
            return Err(AllocError);
        };
        Ok(block)
    }

    /// The outside of a loop, which the regions of all memrefs at it share.
    pub fn outside(&self, alloc: Global, block: &FoundBlock<'a>) -> Result<Outside, RegionFault>
        requires block { StandsIn (text_of self.now) (block_of block.now) }
        ensures { Meets (outside_at (module_of self.now).args (block_of block.now).way) (λ o. o) result }
    {
        let verified = self.verified;
        let module = verified.module();
        let way = block.way.as_slice();
        outside_of(alloc, self.hashing, module.args.as_slice(), way)
    }

    /// The region of a memref of these sizes at a loop, from its accesses there.
    pub(crate) fn region(
        &self,
        alloc: Global,
        block: &FoundBlock<'a>,
        outside: &Result<Outside, RegionFault>,
        memref: &Name,
        uses: &[FoundUse<'a>],
        sizes: &[u32],
    ) -> Result<Result<Region, Cause>, AllocError>
        requires block { StandsIn (text_of self.now) (block_of block.now) }
        requires outside { Meets (outside_at (module_of self.now).args (block_of block.now).way) (λ o. o) outside.now }
        requires uses { map seen uses.now ≡ uses_in memref.now (block_of block.now) }
        ensures { IfOk result (λ r. by_cause (region_in (module_of self.now).args (block_of block.now) memref.now sizes.now self.now.options.dma) ≡ r) }
    {
        let verified = self.verified;
        let module = verified.module();
        let args = module.args.as_slice();
        let way = block.way.as_slice();
        let dma = self.options.dma;
        let found = region_of_uses(alloc, self.hashing, args, way, outside, uses, sizes, dma);
        sought(found)
    }
}

/// The accesses of a memref in a loop.
pub fn uses_of<'a>(
    alloc: Global,
    memref: &Name,
    block: &FoundBlock<'a>,
) -> Result<Vec<FoundUse<'a>>, AllocError>
    ensures { IfOk result (λ found. map seen found.items ≡ uses_in memref.now (block_of block.now)) }
{
    let mut way = copied_way(alloc, block.way.as_slice())?;
    way.push(Step::Round {
        var: block.var,
        lower: block.lower,
        upper: block.upper,
        step: block.step,
    })?;
    uses_within(alloc, memref, block.body, &mut way)
}
