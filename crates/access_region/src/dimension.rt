//! One dimension of a region, and all of them.

ghost use Rattle.std.specs.Prelude.{◌≡◌, ℕ, ◌+◌, ◌≤◌, ◌<◌, ◌^◌, pos, ◌+ℤ◌, ◌≤ℤ◌, length, drop, IfOk, int_lt, int_le};
ghost use Rattle.access_region.specs.Faults.{Meets};
ghost use Rattle.access_region.specs.Regions.{at_most_whole, clamped_by, placed, dimension, dimensions};
ghost use Rattle.projection.specs.Reaches.{shape_of};

use crate::candidate::candidates;
use crate::fault::RegionFault;
use crate::reaching::{Outside, Reaching};
use crate::span::{Tried, best, reach_at};
use affine_expr::Combination;
use constraint_set::System;
use nest_domain::{Region, RegionDim};
use projection::Reached;
use std::alloc::{AllocError, Global};
use std::marker::Model;

/// A candidate with its offset and its extent, which is at most the size of the dimension.
#[derive(Drop)]
struct Fitted {
    coefs: Vec<i128>,
    offset: i128,
    extent: u32,
}

impl Model for Fitted {
    ghost use Rattle.std.specs.Prelude.{pos};
    ghost use Rattle.access_region.specs.Spans.{Tried};

    ghost Value = { Tried };

    ghost view = { λ t. record { coefs = t.coefs.items; offset = t.offset; extent = pos t.extent } };
}

/// Whether the extent is no less than the size.
fn is_whole(size: u32, tried: &Tried) -> bool
    ensures { result ≡ int_le (pos size) tried.now.extent }
{
    size as u128 <= tried.last.saturating_add(1)
}

/// All of a dimension, where the extent is no less than the size.
fn at_most_whole(alloc: Global, outer: u32, size: u32, tried: Tried) -> Result<Fitted, AllocError>
    ensures { IfOk result (λ t. t ≡ at_most_whole outer (pos size) tried) }
{
    if is_whole(size, &tried) {
        let coefs = vec![in alloc; 0; outer as usize]?;
        return Ok(Fitted {
            coefs,
            offset: 0,
            extent: size,
        });
    }
    let Tried {
        coefs,
        offset,
        last,
    } = tried;
    Ok(Fitted {
        coefs,
        offset,
        extent: (last + 1) as u32,
    })
}

/// Whether a sum is negative, whatever its size.
fn begins_below(least: i128, offset: i128) -> bool
    ensures { result ≡ int_lt (least +ℤ offset) (pos 0) }
{
    least.saturating_add(offset) < 0
}

/// Whether a sum passes the size, whatever its own.
fn ends_above(size: u32, greatest: i128, offset: i128, extent: u32) -> bool
    ensures { result ≡ int_lt (pos size) ((greatest +ℤ offset) +ℤ pos extent) }
{
    greatest
        .saturating_add(offset)
        .saturating_add(extent as i128)
        > size as i128
}

fn clamped_by(size: u32, fitted: Fitted, reached: Reached) -> Result<RegionDim, RegionFault>
    ensures { Meets (clamped_by (pos size) fitted (shape_of reached)) (λ d. d) result }
{
    let Reached::Between { least, greatest } = reached else {
        return Err(RegionFault::Region);
    };
    let Fitted {
        coefs,
        offset,
        extent,
    } = fitted;
    let clamped = begins_below(least, offset) || ends_above(size, greatest, offset, extent);
    Ok(RegionDim {
        coefs,
        offset,
        extent,
        clamped,
    })
}

/// Whether a part has to be moved into the memref.
fn placed(
    alloc: Global,
    outside: &System,
    size: u32,
    fitted: Fitted,
) -> Result<RegionDim, RegionFault>
    ensures { Meets (placed outside.now (pos size) fitted) (λ d. d) result }
{
    let coefs = Vec::from_slice(alloc, &fitted.coefs)?;
    let reached = reach_at(alloc, outside, &Combination { coefs, constant: 0 })?;
    clamped_by(size, fitted, reached)
}

/// The part of one dimension.
fn dimension(
    alloc: Global,
    outside: &Outside,
    loops: usize,
    accesses: &[Reaching],
    dim: usize,
    size: u32,
) -> Result<RegionDim, RegionFault>
    ensures { Meets (dimension outside.now loops accesses.now dim size) (λ d. d) result }
{
    let candidates = candidates(alloc, outside.outer, loops, dim, accesses)?;
    let tried = best(alloc, dim, accesses, &candidates)?;
    let fitted = at_most_whole(alloc, outside.outer, size, tried)?;
    placed(alloc, &outside.system, size, fitted)
}

/// The parts of all dimensions of these sizes.
fn dimensions(
    alloc: Global,
    outside: &Outside,
    loops: usize,
    accesses: &[Reaching],
    sizes: &[u32],
) -> Result<Vec<RegionDim>, RegionFault>
    ensures { Meets (dimensions outside.now loops accesses.now 0 sizes.now) (λ ds. ds.items) result }
{
    let mut dims = Vec::new(alloc);
    for (dim, size) in sizes.iter().enumerate() {
        let made = dimension(alloc, outside, loops, accesses, dim, *size)?;
        dims.push(made)?;
    }
    Ok(dims)
}

/// The box of a memref of these sizes that holds its accesses in a loop behind so many loops, before it is widened and before its
/// templates are asked for the rule on intervals. The first cause that holds comes, in the order of the dimensions and of their
/// candidates.
pub fn box_of(
    alloc: Global,
    outside: &Outside,
    loops: usize,
    accesses: &[Reaching],
    sizes: &[u32],
) -> Result<Region, RegionFault>
    ensures { Meets (dimensions outside.now loops accesses.now 0 sizes.now) (λ region. region) result }
{
    let dims = dimensions(alloc, outside, loops, accesses, sizes)?;
    Ok(Region { dims })
}
