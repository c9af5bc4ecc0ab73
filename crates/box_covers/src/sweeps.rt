// Loops that sweep a dimension, and loops that have a turn.
ghost use Rattle.std.specs.Prelude.{◌≡◌, Bool, ◌-◌, ◌+◌, ◌<◌, ◌^◌, length, slice_get, IfOk};
ghost use Rattle.constraint_set.specs.Tidy.{all_zero};
ghost use Rattle.nest_domain.specs.Domains.{shifted};
ghost use Rattle.box_covers.specs.Covers.{place_form, ends_at, sweeps_from, sweeps, passes_from, passes, swept_by, all_swept, others_pass};
ghost use Rattle.box_covers.specs.Told.{Tells};

use crate::same::same_form;
use crate::variables::has_number;
use affine_expr::{Combination, LinearFault};
use nest_domain::{LoopForms, RegionDim};
use num_row::exact_add;
use std::alloc::{AllocError, Global};

/// The place of a dimension.
fn place_form(alloc: Global, dim: &RegionDim) -> Result<Combination, AllocError>
    ensures { IfOk result (λ form. form ≡ place_form dim.now) }
{
    let coefs = Vec::from_slice(alloc, &dim.coefs)?;
    Ok(Combination {
        coefs,
        constant: dim.offset,
    })
}

/// Whether a form is the place and the extent; it isn't where their sum leaves 128 bits.
fn ends_at(alloc: Global, high: &Combination, dim: &RegionDim) -> Result<bool, LinearFault>
    ensures { Tells {A = Bool} (ends_at high.now (shifted (place_form dim.now) dim.now.extent)) (λ b. b) result }
{
    let Some(constant) = exact_add(dim.offset, dim.extent as i128) else {
        return Ok(false);
    };
    let coefs = Vec::from_slice(alloc, &dim.coefs)?;
    same_form(alloc, high, &Combination { coefs, constant })
}

/// Whether a loop between these bounds goes over a dimension: by ones, from its place up to its extent behind it.
fn sweeps_between(
    alloc: Global,
    dim: &RegionDim,
    going: &LoopForms,
    low: &Combination,
    high: &Combination,
) -> Result<bool, LinearFault>
    ensures { Tells {A = Bool} (sweeps_from dim.now going.now low.now high.now) (λ b. b) result }
{
    if going.step != 1 {
        return Ok(false);
    }
    let place = place_form(alloc, dim)?;
    if !same_form(alloc, low, &place)? {
        return Ok(false);
    }
    ends_at(alloc, high, dim)
}

/// Whether a loop goes over a dimension.
fn sweeps(alloc: Global, dim: &RegionDim, going: &LoopForms) -> Result<bool, LinearFault>
    ensures { Tells {A = Bool} (sweeps dim.now going.now) (λ b. b) result }
{
    match (going.lowers.as_slice(), going.uppers.as_slice()) {
        ([low], [high]) => sweeps_between(alloc, dim, going, low, high),
        _ => Ok(false),
    }
}

/// Whether a form names no variable.
fn is_number(coefs: &[i128]) -> bool
    ensures { result ≡ all_zero coefs.now }
{
    let mut all = true;
    for coef in coefs {
        all = all && *coef == 0;
    }
    all
}

/// Whether two bounds differ by a positive number.
fn passes_between(alloc: Global, low: &Combination, high: &Combination) -> Result<bool, LinearFault>
    ensures { Tells {A = Bool} (passes_from low.now high.now) (λ b. b) result }
{
    match high.minus(alloc, low) {
        Ok(gap) => Ok(is_number(&gap.coefs) && 0 < gap.constant),
        Err(LinearFault::Wide) => Ok(false),
        Err(LinearFault::Memory) => Err(LinearFault::Memory),
    }
}

/// Whether a loop has a turn wherever it is come to.
fn passes(alloc: Global, going: &LoopForms) -> Result<bool, LinearFault>
    ensures { Tells {A = Bool} (passes going.now) (λ b. b) result }
{
    match (going.lowers.as_slice(), going.uppers.as_slice()) {
        ([low], [high]) => passes_between(alloc, low, high),
        _ => Ok(false),
    }
}

/// Whether the loop with this number, if there is one, sweeps a dimension, which isn't clamped.
fn swept_by(
    alloc: Global,
    dim: &RegionDim,
    goings: &[LoopForms],
    number: usize,
) -> Result<bool, LinearFault>
    ensures { Tells {A = Bool} (swept_by dim.now (slice_get goings.now number)) (λ b. b) result }
{
    match goings.get(number) {
        None => Ok(false),
        Some(going) => {
            if dim.clamped {
                return Ok(false);
            }
            sweeps(alloc, dim, going)
        }
    }
}

/// Whether the loop of each subscript's variable sweeps its dimension.
#[tactic(auto, using(crate::proofs::Uneven::uneven, crate::proofs::Uneven::uneven_told))]
pub(crate) fn all_swept(
    alloc: Global,
    first: u32,
    goings: &[LoopForms],
    dims: &[RegionDim],
    places: &[u32],
) -> Result<bool, LinearFault>
    ensures { Tells {A = Bool} (all_swept first goings.now dims.now places.now) (λ b. b) result }
{
    if dims.len() != places.len() {
        return Ok(false);
    }
    for (number, dim) in dims.iter().enumerate() {
        let place = places[number].saturating_sub(first) as usize;
        if !swept_by(alloc, dim, goings, place)? {
            return Ok(false);
        }
    }
    Ok(true)
}

/// Whether the loops that sweep no dimension have a turn, from the one with this variable on.
pub(crate) fn others_pass(
    alloc: Global,
    first: u32,
    goings: &[LoopForms],
    places: &[u32],
) -> Result<bool, LinearFault>
    requires { first + length goings.now < 2 ^ 32 }
    ensures { Tells {A = Bool} (others_pass first goings.now places.now) (λ b. b) result }
{
    for (number, going) in goings.iter().enumerate() {
        if !has_number(first + number as u32, places) && !passes(alloc, going)? {
            return Ok(false);
        }
    }
    Ok(true)
}
