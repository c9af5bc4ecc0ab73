// The accesses of a memref, redirected to its fast memref.
ghost use Rattle.std.specs.Prelude.{◌≡◌, ◌+◌, ◌<◌, ◌++◌, ◌-ℤ◌, ◌^◌, length, take, drop, IfOk};
ghost use Rattle.affine_expr.specs.declared.expr.Expr.{Const};
ghost use Rattle.made_names.specs.Made.{made_name};
ghost use Rattle.placement_texts.specs.Template.{less, begins, begins_from, named, in_fast, fast_name, fast_type};
ghost use Rattle.affine_ast.specs.declared.stmt.What as what;
ghost use Rattle.placement_code.specs.Placed.{placement_of, MayBeWritten};
ghost use Rattle.placement_code.specs.Redirects.{less_one, less_dims, HasSmall, HaveSmall};
ghost use Rattle.valid_laws.specs.Safe.{IsSmall};
ghost use Rattle.placement_code.specs.Small.{IsPlace, IsWell, AreWell};

use crate::accesses::{behind, fast_type, is_fixed, named};
use crate::placement::{Dimension, Placement};
use crate::places::fixed;
use crate::sums::taken;
use affine_ast::{Access, Name, What};
use affine_expr::{Expr, Map};
use made_names::made_name;
use sqlite_items::Items;
use std::alloc::{AllocError, Global};

/// A number less a place.
fn lowered(number: i64, place: i64) -> i64
    requires number { IsSmall number }
    requires place { IsPlace place }
    ensures { result ≡ number -ℤ place }
{
    number - place
}

/// `expr - place`.
#[tactic(auto, using(crate::proofs::Lessened::less_const, crate::proofs::Lessened::less_other, crate::proofs::Lessened::small_const))]
fn less(alloc: Global, expr: &Expr, place: i64) -> Result<Expr, AllocError>
    requires place { IsPlace place }
    requires constant { HasSmall expr.now }
    ensures { IfOk result (λ difference. difference ≡ less expr.now place) }
{
    match expr {
        Expr::Const(number) => Ok(Expr::Const(lowered(*number, place))),
        _ => {
            let copied = expr.copy(alloc)?;
            if place == 0 {
                Ok(copied)
            } else {
                taken(alloc, copied, Expr::Const(place))
            }
        }
    }
}

/// A subscript less the place of its dimension.
#[tactic(auto, using(crate::proofs::Lessened::fixed_is_place))]
fn less_one(alloc: Global, k: u32, expr: &Expr, dim: &Dimension) -> Result<Expr, AllocError>
    requires dim { IsWell dim.now }
    requires constant { HasSmall expr.now }
    ensures { IfOk result (λ difference. difference ≡ less_one k expr.now dim.now) }
{
    if is_fixed(dim) {
        less(alloc, expr, fixed(dim))
    } else {
        taken(alloc, expr.copy(alloc)?, Expr::Dim(k))
    }
}

/// Each subscript less the place of its dimension; the values that say places are dimensions from this one on.
fn less_places(
    alloc: Global,
    first: u32,
    exprs: &[Expr],
    dims: &[Dimension],
) -> Result<Items<Expr>, AllocError>
    requires first { first + length dims.now < 2 ^ 32 }
    requires constants { HaveSmall exprs.now }
    requires dims { AreWell dims.now }
    ensures { IfOk result (λ differences. differences ≡ less_dims first exprs.now dims.now) }
{
    let mut differences = Items::new(alloc);
    let mut k = first;
    let mut rest = dims;
    for expr in exprs {
        let Some((dim, more)) = rest.split_first() else {
            differences.push(expr.copy(alloc)?)?;
            continue;
        };
        differences.push(less_one(alloc, k, expr, dim)?)?;
        k = behind(k, dim);
        rest = more;
    }
    Ok(differences)
}

fn copies(alloc: Global, names: &[Name]) -> Result<Items<Name>, AllocError>
    ensures { IfOk result (λ copies. copies ≡ names.now) }
{
    let mut copies = Items::new(alloc);
    for name in names {
        copies.push(name.copy(alloc)?)?;
    }
    Ok(copies)
}

/// Operands with others behind so many of them.
fn with_places(
    alloc: Global,
    operands: &[Name],
    first: usize,
    places: Items<Name>,
) -> Result<Items<Name>, AllocError>
    ensures { IfOk result (λ names. names ≡ take first operands.now ++ (places ++ drop first operands.now)) }
{
    let first = first.min(operands.len());
    let mut more = places;
    more.append(copies(alloc, &operands[first..])?)?;
    let mut names = copies(alloc, &operands[..first])?;
    names.append(more)?;
    Ok(names)
}

/// An access of the memref as one of its fast memref: the half is 0, and each subscript is less the place of its dimension. The values
/// that say places are dimensions behind those of the access.
///
/// # Errors
///
/// `AllocError`, for want of memory, and where the map would have more than 2^32 - 1 dimensions.
#[tactic(auto, using(crate::proofs::Steps::long_begins, crate::proofs::Lessened::less_dims_is))]
pub fn in_fast(
    alloc: Global,
    number: u32,
    dims: &[Dimension],
    at: &Access,
) -> Result<Access, AllocError>
    requires number { number < 262144 }
    requires dims { AreWell dims.now }
    requires constants { HaveSmall at.now.map.results }
    ensures { IfOk result (λ fast. fast ≡ in_fast (begins_from (made_name number) 0 dims.now) at.now) }
{
    let first = at.map.dims;
    if first > u32::MAX - 6 {
        return Err(AllocError);
    }
    let places = named(alloc, number, dims)?;
    let count = places.len() as u32;
    let mut results = Items::new(alloc);
    results.push(Expr::Const(0))?;
    results.append(less_places(alloc, first, at.map.results.as_slice(), dims)?)?;
    Ok(Access {
        map: Map {
            dims: first + count,
            syms: at.map.syms,
            results,
        },
        operands: with_places(alloc, at.operands.as_slice(), first as usize, places)?,
    })
}

/// A load of the memref as one of its fast memref.
///
/// # Errors
///
/// As `in_fast`.
pub fn load_in_fast(
    alloc: Global,
    placed: &Placement,
    into: &Name,
    at: &Access,
) -> Result<What, AllocError>
    requires placed { MayBeWritten placed.now }
    requires constants { HaveSmall at.now.map.results }
    ensures { let p = placement_of placed.now in IfOk result (λ made. made ≡ what.Load into.now (fast_name p.name) (in_fast (begins p) at.now) (fast_type p)) }
{
    let dims = placed.dims.as_slice();
    Ok(What::Load {
        result: into.copy(alloc)?,
        memref: made_name(alloc, placed.number, 0)?,
        at: in_fast(alloc, placed.number, dims, at)?,
        ty: fast_type(alloc, dims, placed.element)?,
    })
}

/// A store to the memref as one to its fast memref.
///
/// # Errors
///
/// As `in_fast`.
pub fn store_in_fast(
    alloc: Global,
    placed: &Placement,
    value: &Name,
    at: &Access,
) -> Result<What, AllocError>
    requires placed { MayBeWritten placed.now }
    requires constants { HaveSmall at.now.map.results }
    ensures { let p = placement_of placed.now in IfOk result (λ made. made ≡ what.Store value.now (fast_name p.name) (in_fast (begins p) at.now) (fast_type p)) }
{
    let dims = placed.dims.as_slice();
    Ok(What::Store {
        value: value.copy(alloc)?,
        memref: made_name(alloc, placed.number, 0)?,
        at: in_fast(alloc, placed.number, dims, at)?,
        ty: fast_type(alloc, dims, placed.element)?,
    })
}
