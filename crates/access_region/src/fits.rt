//! Whether a region's templates keep to the rule on intervals.

ghost use Rattle.std.specs.Prelude.{◌≡◌, IfOk};
ghost use Rattle.affine_expr.specs.Bounded.{ranges};
ghost use Rattle.access_region.specs.Places.{accesses_fit, region_fits};

use crate::reaching::Reaching;
use affine_expr::Interval;
use nest_domain::RegionDim;
use place_intervals::{copies_fit, place_ranges, subscripts_fit};
use std::alloc::{AllocError, Global};

/// Whether the redirected subscripts of all accesses do.
fn accesses_fit(places: &[Interval], accesses: &[Reaching]) -> bool
    ensures { result ≡ accesses_fit (ranges places.now) accesses.now }
{
    for access in accesses {
        if !subscripts_fit(&access.ranges, places) {
            return false;
        }
    }
    true
}

/// Whether the templates of a region keep to the rule on intervals.
pub(crate) fn region_fits(
    alloc: Global,
    intervals: &[Interval],
    accesses: &[Reaching],
    sizes: &[u32],
    dma: bool,
    dims: &[RegionDim],
) -> Result<bool, AllocError>
    ensures { IfOk result (λ fits. fits ≡ region_fits (ranges intervals.now) accesses.now sizes.now dma dims.now) }
{
    let Some(places) = place_ranges(alloc, intervals, sizes, dims)? else {
        return Ok(false);
    };
    if !dma && !copies_fit(dims, &places) {
        return Ok(false);
    }
    Ok(accesses_fit(&places, accesses))
}
