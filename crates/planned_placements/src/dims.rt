// Dimensions of a placement from those of a region.
ghost use Rattle.std.specs.Prelude.{◌≡◌, pos, ◌-ℤ◌, if◌then◌else◌, length, IfOk, All};
ghost use Rattle.std.specs.Int.{int_min, int_max};
ghost use Rattle.valid_laws.specs.Safe.{IsSmall};
ghost use Rattle.placement_regions.specs.Sites.{terms_over, offset_over, dim_over, dims_over};
ghost use Rattle.planned_placements.specs.Writable.{IsWritable, AreWritable};

use affine_ast::Name;
use nest_domain::RegionDim;
use placement_code::Dimension;
use sqlite_items::Items;
use std::alloc::{AllocError, Global};

/// A small number in 64 bits.
fn narrowed(number: i128) -> i64
    requires { IsSmall number }
    ensures { result ≡ number }
{
    number as i64
}

/// A value with its coefficient.
fn term(alloc: Global, name: &Name, factor: i128) -> Result<(Name, i64), AllocError>
    requires { IsSmall factor }
    ensures { IfOk result (λ term. term ≡ (name.now, factor)) }
{
    let name = name.copy(alloc)?;
    Ok((name, narrowed(factor)))
}

/// The terms of a place: the outer variables with a coefficient other than 0.
#[tactic(auto, using(crate::proofs::Terms::terms_more, crate::proofs::Terms::terms_less, crate::proofs::Terms::terms_end, crate::proofs::Terms::small_at))]
fn terms_over(
    alloc: Global,
    names: &[Name],
    coefs: &[i128],
) -> Result<Items<(Name, i64)>, AllocError>
    requires same { length coefs.now ≡ length names.now }
    requires small { All IsSmall coefs.now }
    ensures { IfOk result (λ terms. terms ≡ terms_over names.now coefs.now) }
{
    let mut terms = Items::new(alloc);
    for (at, name) in names.iter().enumerate() {
        let factor = coefs[at];
        if factor != 0 {
            terms.push(term(alloc, name, factor)?)?;
        }
    }
    Ok(terms)
}

/// The offset of a place that is a number: where it is clamped, as near to the region's as the box lies in the memref.
fn fixed_offset(dim: &RegionDim, size: u32) -> i128
    ensures { result ≡ (if dim.now.clamped then int_max (int_min dim.now.offset (pos size -ℤ dim.now.extent)) (pos 0) else dim.now.offset) }
{
    if dim.clamped {
        let last = size as i128 - dim.extent as i128;
        dim.offset.min(last).max(0)
    } else {
        dim.offset
    }
}

/// The offset from these terms.
#[tactic(auto, using(crate::proofs::Offsets::offset_none, crate::proofs::Offsets::offset_some))]
fn offset_over(terms: &[(Name, i64)], dim: &RegionDim, size: u32) -> i64
    requires { IsSmall (offset_over terms.now dim.now size) }
    ensures { result ≡ offset_over terms.now dim.now size }
{
    if terms.is_empty() {
        narrowed(fixed_offset(dim, size))
    } else {
        narrowed(dim.offset)
    }
}

/// A dimension of a placement, where the memref has this size.
fn dim_over(
    alloc: Global,
    names: &[Name],
    dim: &RegionDim,
    size: u32,
) -> Result<Dimension, AllocError>
    requires { IsWritable (length names.now) dim.now }
    ensures { IfOk result (λ made. made ≡ dim_over names.now dim.now size) }
{
    let terms = terms_over(alloc, names, &dim.coefs)?;
    let offset = offset_over(terms.as_slice(), dim, size);
    Ok(Dimension {
        size,
        terms,
        offset,
        extent: dim.extent,
        clamped: dim.clamped,
    })
}

/// The dimensions of a placement whose box is this region, over the outer variables of its loop.
///
/// # Errors
///
/// `AllocError`, for want of memory alone.
#[tactic(auto, using(crate::proofs::Terms::dims_more, crate::proofs::Terms::dims_end, crate::proofs::Terms::writable_at))]
pub fn dims_over(
    alloc: Global,
    names: &[Name],
    region: &[RegionDim],
    sizes: &[u32],
) -> Result<Items<Dimension>, AllocError>
    requires same { length sizes.now ≡ length region.now }
    requires written { AreWritable (length names.now) region.now }
    ensures { IfOk result (λ dims. dims ≡ dims_over names.now region.now sizes.now) }
{
    let mut dims = Items::new(alloc);
    for (at, dim) in region.iter().enumerate() {
        dims.push(dim_over(alloc, names, dim, sizes[at])?)?;
    }
    Ok(dims)
}
