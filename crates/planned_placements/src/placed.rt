// A placement of a memref at a loop, from its region there.
ghost use Rattle.std.specs.Prelude.{◌≡◌, ◌<◌, IfOk};
ghost use Rattle.made_names.specs.Made.{made_name};
ghost use Rattle.placement_code.specs.Placed.{placement_of, MayBeWritten};
ghost use Rattle.placement_regions.specs.Sites.{dims_over};
ghost use Rattle.planned_placements.specs.Writable.{MayBePlaced};
ghost use Rattle.staged_plans.specs.Plans.{how_over};

use crate::dims::dims_over;
use crate::how::how_over;
use affine_ast::{MemrefType, Name};
use nest_domain::RegionDim;
use placement_code::Placement;
use std::alloc::{AllocError, Global};

/// Whether a box is read in before its loop and written out behind it, and whether by transfers.
#[derive(Clone, Copy)]
pub struct Copied {
    pub reads: bool,
    pub writes: bool,
    pub dma: bool,
}

/// The placement of this number: of a memref of this type, whose box is this region over the outer variables of its loop.
///
/// # Errors
///
/// `AllocError`, for want of memory alone.
pub fn placement(
    alloc: Global,
    memref: &Name,
    ty: &MemrefType,
    names: &[Name],
    region: &[RegionDim],
    copied: Copied,
    number: u32,
) -> Result<Placement, AllocError>
    requires number { number < 262144 }
    requires region { MayBePlaced names.now region.now ty.now.sizes }
    ensures placed { let ds = dims_over names.now region.now ty.now.sizes in IfOk result (λ placed. placement_of placed ≡ record { memref = memref.now; element = ty.now.element; dims = ds; reads = copied.reads; writes = copied.writes; how = how_over copied.dma ds; name = made_name number }) }
    ensures written { IfOk result (λ placed. MayBeWritten placed) }
{
    let dims = dims_over(alloc, names, region, ty.sizes.as_slice())?;
    let how = how_over(copied.dma, dims.as_slice());
    Ok(Placement {
        memref: memref.copy(alloc)?,
        element: ty.element,
        dims,
        reads: copied.reads,
        writes: copied.writes,
        how,
        number,
    })
}
