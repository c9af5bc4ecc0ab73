//! The region from the accesses of a memref and the outside of their loop.

ghost use Rattle.std.specs.Prelude.{◌≡◌};
ghost use Rattle.access_region.specs.Faults.{Meets};
ghost use Rattle.access_region.specs.Places.{kept_where, region_from};

use crate::dimension::box_of;
use crate::fault::RegionFault;
use crate::fits::region_fits;
use crate::reaching::{Outside, Reaching};
use crate::widening::widen_for_transfers;
use nest_domain::Region;
use std::alloc::Global;

/// The region of a memref of these sizes for its accesses in a loop behind so many loops. With `dma` it is widened until one
/// transfer carries it. The first cause that holds comes, in the order of the dimensions and of their candidates.
#[tactic(auto, using(crate::proofs::Froms::no_dimensions, crate::proofs::Froms::from_dimensions, crate::proofs::Froms::dimensions_long))]
pub fn region_from(
    alloc: Global,
    outside: &Outside,
    loops: usize,
    accesses: &[Reaching],
    sizes: &[u32],
    dma: bool,
) -> Result<Region, RegionFault>
    ensures { Meets (region_from outside.now loops accesses.now sizes.now dma) (λ region. region) result }
{
    let mut region = box_of(alloc, outside, loops, accesses, sizes)?;
    widen_for_transfers(alloc, dma, &mut region, sizes)?;
    if !region_fits(alloc, &outside.ranges, accesses, sizes, dma, &region.dims)? {
        return Err(RegionFault::Coefficient);
    }
    Ok(region)
}
