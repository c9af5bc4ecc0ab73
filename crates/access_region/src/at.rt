//! The region of a memref at a loop of a module.

ghost use Rattle.std.specs.Prelude.{◌≡◌, ◌<◌, [], ◌∷◌, if◌then◌else◌, length, map, slice_get, IfOk, Some};
ghost use Rattle.std.specs.Option.{option_map};
ghost use Rattle.constraint_set.specs.Lists.{Each};
ghost use Rattle.affine_ast.specs.declared.module.Arg.{Arg};
ghost use Rattle.affine_ast.specs.Nest.{nest};
ghost use Rattle.direct_meaning.specs.Work.{start_ranges};
ghost use Rattle.nest_domain.specs.Ways.{Spot, at_path, loop_count};
ghost use Rattle.nest_domain.specs.Steps.{header_of, spot_of};
ghost use Rattle.nest_domain.specs.Accessing.{NamesLoop};
ghost use Rattle.nest_domain.specs.Ready.{Ready};
ghost use Rattle.text_places.specs.Finding.{seen, block_of};
ghost use Rattle.access_region.specs.Faults.{Meets};
ghost use Rattle.access_region.specs.Finding.{ReadyUse, kind_sizes, loop_at, uses_in, region_in, region_at};
ghost use Rattle.access_region.specs.Regions.{outside_at};
ghost use Rattle.access_region.specs.Places.{region_of};

use crate::fault::RegionFault;
use crate::gather::{outside_of, reaching};
use crate::reaching::Outside;
use crate::region::region_from;
use affine_ast::{Arg, ArgKind, Name, Path, Verified, What};
use name_hash::NameHashing;
use nest_domain::{Found, Region, Step, way_to};
use std::alloc::{AllocError, Global};
use text_places::{FoundBlock, FoundUse, copied_way, uses_within};

fn is_loop(step: &Step<'_>) -> bool
    ensures { (if result then 1 else 0) ≡ loop_count (header_of step.now ∷ []) }
{
    matches!(step, Step::Round { .. })
}

/// How many loops there are on a way.
#[tactic(auto, using(crate::proofs::Gathering::loop_counted, crate::proofs::Gathering::none_counted, crate::proofs::Gathering::count_ends))]
fn loops_on(way: &[Step<'_>]) -> usize
    ensures { result ≡ loop_count (map header_of way.now) }
{
    let mut count = 0;
    for step in way {
        if is_loop(step) {
            count += 1;
        }
    }
    count
}

/// The region of a memref of these sizes, from its accesses in a loop at the end of a way, whose outside is given or has no rows.
/// With `dma` it is widened until one transfer carries it.
///
/// # Errors
///
/// The first cause that holds; `Memory` for want of memory.
#[tactic(auto, using(crate::proofs::AtLoops::no_accesses))]
pub fn region_of_uses<'a>(
    alloc: Global,
    hashing: NameHashing,
    args: &'a [Arg],
    way: &[Step<'a>],
    outside: &Result<Outside, RegionFault>,
    uses: &[FoundUse<'a>],
    sizes: &[u32],
    dma: bool,
) -> Result<Region, RegionFault>
    requires ready { Each (ReadyUse (start_ranges args.now)) (map seen uses.now) }
    requires outside { Meets (outside_at args.now (map header_of way.now)) (λ o. o) outside.now }
    ensures { Meets (region_of args.now (map header_of way.now) (map seen uses.now) sizes.now dma) (λ region. region) result }
{
    let accesses = reaching(alloc, hashing, args, uses)?;
    match outside {
        Ok(outside) => region_from(alloc, outside, loops_on(way), &accesses, sizes, dma),
        Err(fault) => Err(*fault),
    }
}

/// The loop that a path names.
#[tactic(auto, using(crate::proofs::AtLoops::no_statement, crate::proofs::AtLoops::loop_there, crate::proofs::AtLoops::no_loop_there))]
pub(crate) fn loop_of(found: Found<'_>) -> Option<FoundBlock<'_>>
    ensures { option_map block_of result ≡ loop_at (spot_of found.entry) }
{
    let Some(first) = found.here.first() else {
        return None;
    };
    match &first.what {
        What::For {
            var,
            lower,
            upper,
            step,
            body,
        } => Some(FoundBlock {
            way: found.way,
            line: first.line,
            var,
            lower,
            upper,
            step: *step,
            body: body.as_slice(),
        }),
        _ => None,
    }
}

/// The accesses of a memref in a loop.
pub(crate) fn uses_in<'a>(
    alloc: Global,
    memref: &Name,
    block: &FoundBlock<'a>,
) -> Result<Vec<FoundUse<'a>>, AllocError>
    ensures { IfOk result (λ found. map seen found.items ≡ uses_in memref.now (block_of block.now)) }
{
    let mut way = copied_way(alloc, block.way.as_slice())?;
    way.push(Step::Round {
        var: block.var,
        lower: block.lower,
        upper: block.upper,
        step: block.step,
    })?;
    uses_within(alloc, memref, block.body, &mut way)
}

/// The sizes of an argument: none where it is no memref.
fn kind_sizes(kind: &ArgKind) -> &[u32]
    ensures { result.now ≡ kind_sizes kind.now }
{
    match kind {
        ArgKind::Memref(ty) => ty.sizes.as_slice(),
        ArgKind::Index(_) => &[],
    }
}

/// The region of a memref at a loop.
fn region_in<'a>(
    alloc: Global,
    hashing: NameHashing,
    args: &'a [Arg],
    block: &FoundBlock<'a>,
    memref: &Arg,
    dma: bool,
) -> Result<Region, RegionFault>
    requires way { Ready (block_of block.now).way (start_ranges args.now) }
    requires uses { Each (ReadyUse (start_ranges args.now)) (uses_in memref.now.name (block_of block.now)) }
    ensures { Meets (region_in args.now (block_of block.now) memref.now.name (kind_sizes memref.now.kind) dma) (λ region. region) result }
{
    let uses = uses_in(alloc, &memref.name, block)?;
    let way = block.way.as_slice();
    let outside = outside_of(alloc, hashing, args, way);
    let sizes = kind_sizes(&memref.kind);
    region_of_uses(
        alloc,
        hashing,
        args,
        way,
        &outside,
        uses.as_slice(),
        sizes,
        dma,
    )
}

/// The region of a memref, which its argument's number names, at the loop that a path names. With `dma` it is widened until one
/// transfer with one chunk and one stride carries it.
///
/// # Errors
///
/// The first cause that holds; `Memory` for want of memory.
pub fn region_of(
    alloc: Global,
    module: &Verified,
    at: &Path,
    memref: u32,
    dma: bool,
) -> Result<Region, RegionFault>
    requires path { NamesLoop (at_path (nest «module».now.inner.body) at.now.steps) }
    requires memref { memref < length «module».now.inner.args }
    ensures { (s : Spot) (arg : Arg) → at_path (nest «module».now.inner.body) at.now.steps ≡ Some s → slice_get «module».now.inner.args memref ≡ Some arg → Meets (region_at «module».now.inner.args s arg.name (kind_sizes arg.kind) dma) (λ region. region) result }
{
    let module = module.module();
    let args = module.args.as_slice();
    let Some(found) = way_to(alloc, module.body.as_slice(), at)? else {
        return Err(RegionFault::Memory);
    };
    let Some(block) = loop_of(found) else {
        return Err(RegionFault::Memory);
    };
    let hashing = NameHashing::of_module(module);
    region_in(alloc, hashing, args, &block, &args[memref as usize], dma)
}
