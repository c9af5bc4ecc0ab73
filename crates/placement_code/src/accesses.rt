// The types and accesses of a template.
ghost use Rattle.std.specs.Prelude.{◌≡◌, ◌+◌, ◌*◌, ◌<◌, ◌≤◌, ℕ, length, map, IfOk, ◌∷◌, if◌then◌else◌, ◌^◌};
ghost use Rattle.made_names.specs.Made.{made_name};
ghost use Rattle.placement_texts.specs.Template.{dim_sizes, dim_extents, begins_from, named, turn_places, place_exprs, turn_dims, turn_names, zeros, slow_at_turns, fast_at_turns, slow_at_places, fast_at_zeros, tag_at_zero, tag_type};
ghost use Rattle.placement_code.specs.Beginnings.{has_none, behind_one, turn_place, place_expr};
ghost use Rattle.placement_code.specs.Small.{AreWell, IsWell};

use crate::placement::Dimension;
use crate::places::fixed;
use crate::sums::{added, with_number};
use affine_ast::{Access, Element, MemrefType, Name};
use affine_expr::{Expr, Map};
use made_names::made_name;
use sqlite_items::Items;
use std::alloc::{AllocError, Global};

// ---- types

/// The sizes of the memref.
fn sizes_of(alloc: Global, dims: &[Dimension]) -> Result<Items<u32>, AllocError>
    ensures { IfOk result (λ sizes. sizes ≡ dim_sizes dims.now) }
{
    let mut sizes = Items::new(alloc);
    for dim in dims {
        sizes.push(dim.size)?;
    }
    Ok(sizes)
}

/// The sizes of the fast memref, from the first dimension of the box on.
fn extents_of(alloc: Global, dims: &[Dimension]) -> Result<Items<u32>, AllocError>
    ensures { IfOk result (λ extents. extents ≡ dim_extents dims.now) }
{
    let mut extents = Items::new(alloc);
    for dim in dims {
        extents.push(dim.extent)?;
    }
    Ok(extents)
}

/// The type of the memref.
pub(crate) fn slow_type(
    alloc: Global,
    dims: &[Dimension],
    element: Element,
) -> Result<MemrefType, AllocError>
    ensures { IfOk result (λ ty. ty ≡ record { sizes = dim_sizes dims.now; element = element; space = 0 }) }
{
    Ok(MemrefType {
        sizes: sizes_of(alloc, dims)?,
        element,
        space: 0,
    })
}

/// The type of the fast memref, of one half.
pub(crate) fn fast_type(
    alloc: Global,
    dims: &[Dimension],
    element: Element,
) -> Result<MemrefType, AllocError>
    ensures { IfOk result (λ ty. ty ≡ record { sizes = 1 ∷ dim_extents dims.now; element = element; space = 1 }) }
{
    let mut sizes = Items::new(alloc);
    sizes.push(1)?;
    sizes.append(extents_of(alloc, dims)?)?;
    Ok(MemrefType {
        sizes,
        element,
        space: 1,
    })
}

/// The type of the tags.
pub(crate) fn tag_type(alloc: Global) -> Result<MemrefType, AllocError>
    ensures { IfOk result (λ ty. ty ≡ tag_type) }
{
    let mut sizes = Items::new(alloc);
    sizes.push(1)?;
    Ok(MemrefType {
        sizes,
        element: Element::I32,
        space: 2,
    })
}

// ---- places in accesses

/// Whether the place of a dimension is a number.
pub(crate) fn is_fixed(dim: &Dimension) -> bool
    ensures { result ≡ has_none dim.now.terms }
{
    dim.terms.as_slice().is_empty()
}

/// The values that say where the box begins.
pub(crate) fn named(
    alloc: Global,
    number: u32,
    dims: &[Dimension],
) -> Result<Items<Name>, AllocError>
    requires number { number < 262144 }
    requires dims { AreWell dims.now }
    ensures names { IfOk result (λ names. names ≡ named (begins_from (made_name number) 0 dims.now)) }
    ensures few { IfOk result (λ names. length names ≤ length dims.now) }
{
    let mut names = Items::new(alloc);
    let mut k = 0;
    for dim in dims {
        if !is_fixed(dim) {
            names.push(made_name(alloc, number, 7 + 4 * k)?)?;
        }
        k += 1;
    }
    Ok(names)
}

/// A turn of a copy loop and the place.
fn turn_place(alloc: Global, turn: u32, k: u32, dim: &Dimension) -> Result<Expr, AllocError>
    requires { IsWell dim.now }
    ensures { IfOk result (λ expr. expr ≡ turn_place turn k dim.now) }
{
    if is_fixed(dim) {
        with_number(alloc, Expr::Dim(turn), fixed(dim))
    } else {
        added(alloc, Expr::Dim(turn), Expr::Dim(k))
    }
}

/// The place alone.
fn place_expr(k: u32, dim: &Dimension) -> Expr
    ensures { result ≡ place_expr k dim.now }
{
    if is_fixed(dim) {
        Expr::Const(fixed(dim))
    } else {
        Expr::Dim(k)
    }
}

/// The number of the next dimension of a map.
pub(crate) fn behind(k: u32, dim: &Dimension) -> u32
    requires { k + 1 < 2 ^ 32 }
    ensures { result ≡ behind_one k dim.now }
{
    if is_fixed(dim) { k } else { k + 1 }
}

/// `turn + place` for each dimension of the memref.
fn turn_places(alloc: Global, dims: &[Dimension]) -> Result<Items<Expr>, AllocError>
    requires { AreWell dims.now }
    ensures { (number : ℕ) → IfOk result (λ exprs. exprs ≡ turn_places 0 (length dims.now) (begins_from (made_name number) 0 dims.now)) }
{
    let mut exprs = Items::new(alloc);
    let mut turn = 0;
    let mut k = dims.len() as u32;
    for dim in dims {
        exprs.push(turn_place(alloc, turn, k, dim)?)?;
        k = behind(k, dim);
        turn += 1;
    }
    Ok(exprs)
}

/// The place of each dimension.
fn place_exprs(alloc: Global, dims: &[Dimension]) -> Result<Items<Expr>, AllocError>
    requires { AreWell dims.now }
    ensures { (number : ℕ) → IfOk result (λ exprs. exprs ≡ place_exprs 0 (begins_from (made_name number) 0 dims.now)) }
{
    let mut exprs = Items::new(alloc);
    let mut k = 0;
    for dim in dims {
        exprs.push(place_expr(k, dim))?;
        k = behind(k, dim);
    }
    Ok(exprs)
}

/// The variables of copy loops: of those in the slots from this one on, four apart.
pub(crate) fn turn_names(
    alloc: Global,
    number: u32,
    slot: u32,
    dims: &[Dimension],
) -> Result<Items<Name>, AllocError>
    requires number { number < 262144 }
    requires slot { slot ≤ 10 }
    requires dims { AreWell dims.now }
    ensures { IfOk result (λ names. names ≡ turn_names (λ d. made_name number (slot + 4 * d)) 0 (begins_from (made_name number) 0 dims.now)) }
{
    let mut names = Items::new(alloc);
    let mut turn = 0;
    for dim in dims {
        names.push(made_name(alloc, number, slot + 4 * turn)?)?;
        turn += 1;
    }
    Ok(names)
}

/// These variables as dimensions.
fn turn_dims(alloc: Global, dims: &[Dimension]) -> Result<Items<Expr>, AllocError>
    requires { AreWell dims.now }
    ensures { (number : ℕ) → IfOk result (λ exprs. exprs ≡ turn_dims 0 (begins_from (made_name number) 0 dims.now)) }
{
    let mut exprs = Items::new(alloc);
    let mut turn = 0;
    for dim in dims {
        exprs.push(Expr::Dim(turn))?;
        turn += 1;
    }
    Ok(exprs)
}

fn zeros(alloc: Global, dims: &[Dimension]) -> Result<Items<Expr>, AllocError>
    ensures { (number : ℕ) → IfOk result (λ exprs. exprs ≡ zeros (begins_from (made_name number) 0 dims.now)) }
{
    let mut exprs = Items::new(alloc);
    for dim in dims {
        exprs.push(Expr::Const(0))?;
    }
    Ok(exprs)
}

/// A use of a map over these values.
fn used(results: Items<Expr>, operands: Items<Name>, dims: u32) -> Access
    ensures { result ≡ record { map = record { dims = dims; syms = 0; results = results }; operands = operands } }
{
    Access {
        map: Map {
            dims,
            syms: 0,
            results,
        },
        operands,
    }
}

/// The memref's element at turns of the copy loops.
#[tactic(auto, using(crate::proofs::Steps::long_begins))]
pub(crate) fn slow_at_turns(
    alloc: Global,
    number: u32,
    slot: u32,
    dims: &[Dimension],
) -> Result<Access, AllocError>
    requires number { number < 262144 }
    requires slot { slot ≤ 10 }
    requires dims { AreWell dims.now }
    ensures { IfOk result (λ at. at ≡ slow_at_turns (λ d. made_name number (slot + 4 * d)) (begins_from (made_name number) 0 dims.now)) }
{
    let results = turn_places(alloc, dims)?;
    let mut operands = turn_names(alloc, number, slot, dims)?;
    let places = named(alloc, number, dims)?;
    let count = dims.len() + places.as_slice().len();
    operands.append(places)?;
    Ok(used(results, operands, count as u32))
}

/// The fast memref's element at turns of the copy loops.
#[tactic(auto, using(crate::proofs::Steps::long_begins))]
pub(crate) fn fast_at_turns(
    alloc: Global,
    number: u32,
    slot: u32,
    dims: &[Dimension],
) -> Result<Access, AllocError>
    requires number { number < 262144 }
    requires slot { slot ≤ 10 }
    requires dims { AreWell dims.now }
    ensures { IfOk result (λ at. at ≡ fast_at_turns (λ d. made_name number (slot + 4 * d)) (begins_from (made_name number) 0 dims.now)) }
{
    let mut results = Items::new(alloc);
    results.push(Expr::Const(0))?;
    results.append(turn_dims(alloc, dims)?)?;
    let operands = turn_names(alloc, number, slot, dims)?;
    Ok(used(results, operands, dims.len() as u32))
}

/// The memref's element at the places.
pub(crate) fn slow_at_places(
    alloc: Global,
    number: u32,
    dims: &[Dimension],
) -> Result<Access, AllocError>
    requires number { number < 262144 }
    requires dims { AreWell dims.now }
    ensures { IfOk result (λ at. at ≡ slow_at_places (begins_from (made_name number) 0 dims.now)) }
{
    let results = place_exprs(alloc, dims)?;
    let operands = named(alloc, number, dims)?;
    let count = operands.as_slice().len() as u32;
    Ok(used(results, operands, count))
}

/// The fast memref's first element.
pub(crate) fn fast_at_zeros(alloc: Global, dims: &[Dimension]) -> Result<Access, AllocError>
    ensures { (number : ℕ) → IfOk result (λ at. at ≡ fast_at_zeros (begins_from (made_name number) 0 dims.now)) }
{
    let mut results = Items::new(alloc);
    results.push(Expr::Const(0))?;
    results.append(zeros(alloc, dims)?)?;
    Ok(used(results, Items::new(alloc), 0))
}

/// The one tag.
pub(crate) fn tag_at_zero(alloc: Global) -> Result<Access, AllocError>
    ensures { IfOk result (λ at. at ≡ tag_at_zero) }
{
    let mut results = Items::new(alloc);
    results.push(Expr::Const(0))?;
    Ok(used(results, Items::new(alloc), 0))
}
