// Whether a store covers a box.
ghost use Rattle.std.specs.Prelude.{◌≡◌, ℕ, ◌+◌, ◌<◌, Bool, false, List, length, drop, map, if◌then◌else◌, ◌∷◌, Ok};
ghost use Rattle.affine_ast.specs.Intervals.{Ranges};
ghost use Rattle.module_work.specs.Workable.{WorkableAccess};
ghost use Rattle.nest_domain.specs.Ways.{Header, loop_count};
ghost use Rattle.nest_domain.specs.Steps.{header_of};
ghost use Rattle.nest_domain.specs.Domains.{symbol_count};
ghost use Rattle.box_covers.specs.Traced.{swept};
ghost use Rattle.box_covers.specs.Covers.{unconditional, covers_from, traced_at, store_covers};
ghost use Rattle.box_covers.specs.Told.{traced_of, Tells, AreReady};

use crate::along::{TracedForms, start, trace, with_loops, with_symbols};
use crate::bounds::{SweptForms, swept};
use crate::sweeps::{all_swept, others_pass};
use crate::variables::{are_distinct, variables_of};
use affine_ast::{Access, Arg};
use affine_expr::LinearFault;
use name_hash::NameHashing;
use nest_domain::{RegionDim, Step};
use std::alloc::Global;

fn is_conditional(step: &Step<'_>) -> bool
    ensures { (hs : List Header) → unconditional (header_of step.now ∷ hs) ≡ (if result then false else unconditional hs) }
{
    match step {
        Step::Round { .. } => false,
        Step::Given { .. } => true,
        Step::Except { .. } => true,
        Step::Behind { .. } => false,
        Step::Past { .. } => false,
    }
}

/// What stands on a way behind so many things.
#[tactic(auto, using(crate::proofs::Passing::headers_behind))]
fn behind<'a, 'b>(count: usize, way: &'b [Step<'a>]) -> &'b [Step<'a>]
    ensures { map header_of result.now ≡ drop count (map header_of way.now) }
{
    let count = count.min(way.len());
    let (_, inner) = way.split_at(count);
    inner
}

/// Whether no condition stands on a way.
fn unconditional(way: &[Step<'_>]) -> bool
    ensures { result ≡ unconditional (map header_of way.now) }
{
    for step in way {
        if is_conditional(step) {
            return false;
        }
    }
    true
}

/// Whether loops, whose variables are those from one up to another, sweep a box with these subscripts.
fn sweep_all(
    alloc: Global,
    first: u32,
    end: u32,
    dims: &[RegionDim],
    found: &SweptForms,
) -> Result<bool, LinearFault>
    requires { end ≡ first + length found.now.goings }
    ensures { Tells {A = Bool} (covers_from first dims.now (Ok found.now)) (λ b. b) result }
{
    let Some(places) = variables_of(alloc, end - first, first, found.forms.as_slice())? else {
        return Ok(false);
    };
    if !are_distinct(places.as_slice()) {
        return Ok(false);
    }
    let goings = found.goings.as_slice();
    if !all_swept(alloc, first, goings, dims, places.as_slice())? {
        return Ok(false);
    }
    others_pass(alloc, first, goings, places.as_slice())
}

/// Whether the loops on a way, whose variables are those from one up to another, sweep a box with the subscripts of the store at its end.
#[tactic(auto, using(crate::proofs::Covered::swept_count))]
fn covers_from<'a>(
    alloc: Global,
    inner: &[Step<'a>],
    at: &'a Access,
    first: u32,
    end: u32,
    dims: &[RegionDim],
    known: &mut TracedForms<'a>,
) -> Result<bool, LinearFault>
    requires way { AreReady (map header_of inner.now) }
    requires subscripts { (rho : Ranges) × WorkableAccess rho at.now }
    requires variables { end ≡ first + loop_count (map header_of inner.now) }
    ensures { Tells {A = Bool} (covers_from first dims.now (swept (map header_of inner.now) at.now (traced_of known.old))) (λ b. b) result }
{
    match swept(alloc, inner, at, known) {
        Ok(found) => sweep_all(alloc, first, end, dims, &found),
        Err(LinearFault::Wide) => Ok(false),
        Err(LinearFault::Memory) => Err(LinearFault::Memory),
    }
}

/// How many index arguments and loops there are at the end of a way.
fn outer_of(args: &[Arg], way: &[Step<'_>]) -> Result<u32, LinearFault>
    ensures { Tells {A = ℕ} (symbol_count args.now + loop_count (map header_of way.now)) (λ n. n) result }
{
    let symbols = with_symbols(0, args)?;
    with_loops(symbols, way)
}

/// What is known at the end of a way, where so many loops stand round a store.
fn traced_at<'a>(
    alloc: Global,
    hashing: NameHashing,
    args: &'a [Arg],
    way: &[Step<'a>],
    there: &[Step<'a>],
) -> Result<TracedForms<'a>, LinearFault>
    requires { AreReady (map header_of way.now) }
    ensures { Tells (traced_at args.now (map header_of way.now) (loop_count (map header_of there.now))) traced_of result }
{
    let next = outer_of(args, there)?;
    let mut known = start(alloc, hashing, args, next)?;
    trace(alloc, way, &mut known)?;
    Ok(known)
}

/// Whether a store at the end of a way that goes on from a loop's covers a box: it stands under no condition within the loop, and the
/// loops from that one on sweep the box. Where a form that is asked for leaves 128 bits, there is no cover.
///
/// # Errors
///
/// `Memory`, for want of memory alone.
#[tactic(auto, using(crate::proofs::Passing::ready_behind, crate::proofs::Passing::store_told, crate::proofs::Passing::store_kept))]
pub fn covers_store<'a>(
    alloc: Global,
    hashing: NameHashing,
    args: &'a [Arg],
    way: &[Step<'a>],
    there: &[Step<'a>],
    at: &'a Access,
    dims: &[RegionDim],
) -> Result<bool, LinearFault>
    requires outside { AreReady (map header_of way.now) }
    requires way { AreReady (map header_of there.now) }
    requires subscripts { (rho : Ranges) × WorkableAccess rho at.now }
    ensures { Tells {A = Bool} (store_covers args.now (map header_of way.now) (map header_of there.now) at.now (symbol_count args.now + loop_count (map header_of way.now)) dims.now) (λ b. b) result }
{
    let inner = behind(way.len(), there);
    if !unconditional(inner) {
        return Ok(false);
    }
    let first = outer_of(args, way)?;
    let end = with_loops(first, inner)?;
    let mut known = traced_at(alloc, hashing, args, way, there)?;
    covers_from(alloc, inner, at, first, end, dims, &mut known)
}
