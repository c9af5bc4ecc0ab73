//! Boxes that one transfer carries, with one chunk and one stride; others are widened.

ghost use Rattle.std.specs.Prelude.{◌≡◌, ℕ, ◌<◌, pos, length, IfOk};
ghost use Rattle.access_region.specs.Widening.{Side, sides, is_whole, is_one, shape_over, shape, is_mixed, whole_dim, last_whole, widened, for_transfers};
ghost use Rattle.access_region.specs.Widened.{whole_at};

use nest_domain::{Region, RegionDim};
use std::alloc::{AllocError, Global};

/// How the elements of a box lie in the memref, from the last dimension on.
#[derive(Clone, Copy)]
pub(crate) enum Shape {
    /// They are all of it.
    Whole,
    /// They are one run.
    OneRun,
    /// They are runs at equal distances, and the next dimension may go on with them.
    EvenRuns,
    /// They are runs at equal distances.
    Runs,
    /// None of these.
    Mixed,
}

fn is_whole(dim: &RegionDim, size: u32) -> bool
    ensures { result ≡ is_whole (record { dim = dim.now; size = pos size }) }
{
    dim.extent == size
}

fn is_one(dim: &RegionDim, size: u32) -> bool
    ensures { result ≡ is_one (record { dim = dim.now; size = pos size }) }
{
    dim.extent == 1
}

impl Shape {
    fn over(self, dim: &RegionDim, size: u32) -> Shape
        ensures { result ≡ shape_over (record { dim = dim.now; size = pos size }) self }
    {
        match self {
            Shape::Whole if is_whole(dim, size) => Shape::Whole,
            Shape::Whole => Shape::OneRun,
            Shape::OneRun if is_one(dim, size) => Shape::OneRun,
            Shape::OneRun | Shape::EvenRuns if is_whole(dim, size) => Shape::EvenRuns,
            Shape::OneRun | Shape::EvenRuns => Shape::Runs,
            Shape::Runs if is_one(dim, size) => Shape::Runs,
            Shape::Runs | Shape::Mixed => Shape::Mixed,
        }
    }

    fn is_mixed(self) -> bool
        ensures { result ≡ is_mixed self }
    {
        matches!(self, Shape::Mixed)
    }
}

fn shape_of(dims: &[RegionDim], sizes: &[u32]) -> Shape
    requires { length dims.now ≡ length sizes.now }
    ensures { result ≡ shape (sides dims.now sizes.now) }
{
    let mut shape = Shape::Whole;
    let mut left = dims.len();
    while left > 0 {
        left -= 1;
        shape = shape.over(&dims[left], sizes[left]);
    }
    shape
}

/// The number of the last dimension that isn't whole; 0 where all others are.
fn last_partial(dims: &[RegionDim], sizes: &[u32]) -> usize
    requires some { 0 < length dims.now }
    requires same { length dims.now ≡ length sizes.now }
    ensures within { result < length dims.now }
    ensures last { sides (whole_at result dims.now sizes.now) sizes.now ≡ last_whole (sides dims.now sizes.now) }
{
    let mut at = dims.len() - 1;
    while at > 0 {
        if !is_whole(&dims[at], sizes[at]) {
            return at;
        }
        at -= 1;
    }
    0
}

/// All of a dimension.
fn whole(alloc: Global, dim: &RegionDim, size: u32) -> Result<RegionDim, AllocError>
    ensures { IfOk result (λ d. d ≡ whole_dim dim.now (pos size)) }
{
    let coefs = vec![in alloc; 0; dim.coefs.len()]?;
    Ok(RegionDim {
        coefs,
        offset: 0,
        extent: size,
        clamped: false,
    })
}

/// The last dimension that isn't whole is made whole.
fn widen_last(alloc: Global, dims: &mut [RegionDim], sizes: &[u32]) -> Result<(), AllocError>
    requires some { 0 < length dims.old }
    requires same { length dims.old ≡ length sizes.now }
    ensures long { length dims.new ≡ length dims.old }
    ensures widened { IfOk result (λ _. sides dims.new sizes.now ≡ last_whole (sides dims.old sizes.now)) }
{
    let at = last_partial(dims, sizes);
    let made = whole(alloc, &dims[at], sizes[at])?;
    dims[at] = made;
    Ok(())
}

/// Dimensions are made whole, from the last on, until one transfer carries the box.
fn widen(alloc: Global, dims: &mut [RegionDim], sizes: &[u32]) -> Result<(), AllocError>
    requires { length dims.old ≡ length sizes.now }
    ensures { IfOk result (λ _. dims.new ≡ widened dims.old sizes.now) }
{
    for _turn in 0..dims.len() {
        if !shape_of(dims, sizes).is_mixed() {
            return Ok(());
        }
        widen_last(alloc, dims, sizes)?;
    }
    Ok(())
}

/// Widens a box for transfers, where these are asked for: dimensions are made whole, from the last on, until one transfer with one
/// chunk and one stride carries it.
pub fn widen_for_transfers(
    alloc: Global,
    dma: bool,
    region: &mut Region,
    sizes: &[u32],
) -> Result<(), AllocError>
    requires { length region.old ≡ length sizes.now }
    ensures { IfOk result (λ _. region.new ≡ for_transfers dma sizes.now region.old) }
{
    if dma {
        return widen(alloc, &mut region.dims, sizes);
    }
    Ok(())
}
