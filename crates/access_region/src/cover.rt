//! Whether the region of a memref at a loop of a module is covered.

ghost use Rattle.std.specs.Prelude.{◌≡◌, ◌+◌, ◌<◌, [], ◌∷◌, Bool, length, map, slice_get, IfOk, Some};
ghost use Rattle.constraint_set.specs.Lists.{Each};
ghost use Rattle.affine_ast.specs.declared.module.Arg.{Arg};
ghost use Rattle.affine_ast.specs.Nest.{nest};
ghost use Rattle.direct_meaning.specs.Work.{start_ranges};
ghost use Rattle.nest_domain.specs.Ways.{Spot, at_path, loop_count};
ghost use Rattle.nest_domain.specs.Steps.{header_of};
ghost use Rattle.nest_domain.specs.Domains.{symbol_count};
ghost use Rattle.nest_domain.specs.Accessing.{NamesLoop};
ghost use Rattle.nest_domain.specs.Ready.{Ready};
ghost use Rattle.text_places.specs.Finding.{seen, block_of};
ghost use Rattle.box_covers.specs.Covers.{covers};
ghost use Rattle.box_covers.specs.Told.{Tells};
ghost use Rattle.access_region.specs.Finding.{ReadyUse, uses_in, covers_in, covers_at};

use crate::at::{loop_of, uses_in};
use affine_ast::{Arg, Path, Verified};
use affine_expr::LinearFault;
use box_covers::covers_store;
use name_hash::NameHashing;
use nest_domain::{Region, RegionDim, Step, way_to};
use std::alloc::{AllocError, Global};
use text_places::{FoundBlock, FoundUse};

/// Whether an access, where it is the only one of its memref in a loop at the end of a way, covers a box.
#[tactic(auto, using(crate::proofs::ReadyUses::each_ready), unfolding(box_covers::specs::Covers::covers))]
fn covers_use<'a>(
    alloc: Global,
    hashing: NameHashing,
    args: &'a [Arg],
    way: &[Step<'a>],
    found: &FoundUse<'a>,
    dims: &[RegionDim],
) -> Result<bool, LinearFault>
    requires way { Ready (map header_of way.now) (start_ranges args.now) }
    requires uses { ReadyUse (start_ranges args.now) (seen found.now) }
    ensures { Tells {A = Bool} (covers args.now (map header_of way.now) (seen found.now ∷ []) (symbol_count args.now + loop_count (map header_of way.now)) dims.now) (λ b. b) result }
{
    match found {
        FoundUse::Affine {
            way: there,
            stores,
            at,
        } => {
            if !*stores {
                return Ok(false);
            }
            covers_store(alloc, hashing, args, way, there.as_slice(), at, dims)
        }
        FoundUse::Other => Ok(false),
    }
}

/// Whether the accesses of a memref in a loop at the end of a way cover a box: there is one alone, and it does.
#[tactic(auto, unfolding(box_covers::specs::Covers::covers))]
fn covers_uses<'a>(
    alloc: Global,
    hashing: NameHashing,
    args: &'a [Arg],
    way: &[Step<'a>],
    uses: &[FoundUse<'a>],
    dims: &[RegionDim],
) -> Result<bool, LinearFault>
    requires way { Ready (map header_of way.now) (start_ranges args.now) }
    requires uses { Each (ReadyUse (start_ranges args.now)) (map seen uses.now) }
    ensures { Tells {A = Bool} (covers args.now (map header_of way.now) (map seen uses.now) (symbol_count args.now + loop_count (map header_of way.now)) dims.now) (λ b. b) result }
{
    match uses {
        [found] => covers_use(alloc, hashing, args, way, found, dims),
        _ => Ok(false),
    }
}

/// Whether a box of a memref is covered at a loop.
fn covers_in<'a>(
    alloc: Global,
    hashing: NameHashing,
    args: &'a [Arg],
    block: &FoundBlock<'a>,
    memref: &Arg,
    dims: &[RegionDim],
) -> Result<bool, AllocError>
    requires way { Ready (block_of block.now).way (start_ranges args.now) }
    requires uses { Each (ReadyUse (start_ranges args.now)) (uses_in memref.now.name (block_of block.now)) }
    ensures { IfOk result (λ covered. covered ≡ covers_in args.now (block_of block.now) memref.now.name dims.now) }
{
    let uses = uses_in(alloc, &memref.name, block)?;
    let way = block.way.as_slice();
    match covers_uses(alloc, hashing, args, way, uses.as_slice(), dims) {
        Ok(covered) => Ok(covered),
        Err(_) => Err(AllocError),
    }
}

/// Whether a box of a memref, which its argument's number names, is covered at the loop that a path names: the memref is accessed in
/// the loop by one store alone, under no condition, which comes to each element of the box in each visit of the loop.
///
/// # Errors
///
/// `AllocError`, for want of memory alone.
pub fn covers(
    alloc: Global,
    module: &Verified,
    at: &Path,
    memref: u32,
    region: &Region,
) -> Result<bool, AllocError>
    requires path { NamesLoop (at_path (nest «module».now.inner.body) at.now.steps) }
    requires memref { memref < length «module».now.inner.args }
    ensures { (s : Spot) (arg : Arg) → at_path (nest «module».now.inner.body) at.now.steps ≡ Some s → slice_get «module».now.inner.args memref ≡ Some arg → IfOk result (λ covered. covered ≡ covers_at «module».now.inner.args s arg.name region.now) }
{
    let module = module.module();
    let args = module.args.as_slice();
    let Some(found) = way_to(alloc, module.body.as_slice(), at)? else {
        return Err(AllocError);
    };
    let Some(block) = loop_of(found) else {
        return Err(AllocError);
    };
    let hashing = NameHashing::of_module(module);
    let dims = region.dims.as_slice();
    covers_in(alloc, hashing, args, &block, &args[memref as usize], dims)
}
