// The lines of a block.
ghost use Rattle.std.specs.Prelude.{◌≡◌, [], ◌∷◌, ◌++◌, map, OnOk, IfOk};
ghost use Rattle.std.specs.List.{flat_map};
ghost use Rattle.direct_meaning.specs.Work.{start_ranges};
ghost use Rattle.nest_domain.specs.Ways.{Round};
ghost use Rattle.nest_domain.specs.Steps.{header_of};
ghost use Rattle.access_region.specs.Faults.{Meets};
ghost use Rattle.access_region.specs.Regions.{outside_at};
ghost use Rattle.text_places.specs.Finding.{block_of, seen};
ghost use Rattle.access_region.specs.Finding.{uses_in};
ghost use Rattle.module_regions.specs.Lines.{found_in, line_text, block_lines};
ghost use Rattle.module_regions.specs.Ready.{ReadyBlock};

use crate::line::put_line;
use crate::sizes::sizes_of;
use access_region::{Outside, RegionFault, outside_of, region_of_uses};
use affine_ast::{Arg, Name};
use name_hash::NameHashing;
use nest_domain::{Region, Step, outer_names};
use std::alloc::{AllocError, Global};
use text_places::{FoundBlock, FoundUse, accessed_in, copied_way, uses_within};

/// The way into the loop of a block.
#[tactic(auto, using(crate::proofs::Pieces::way_inside))]
fn inner_way<'a>(alloc: Global, block: &FoundBlock<'a>) -> Result<Vec<Step<'a>>, AllocError>
    ensures { let b = block_of block.now in IfOk result (λ way. map header_of way.items ≡ b.way ++ Round b.var b.lower b.upper b.step ∷ []) }
{
    let mut way = copied_way(alloc, block.way.as_slice())?;
    way.push(Step::Round {
        var: block.var,
        lower: block.lower,
        upper: block.upper,
        step: block.step,
    })?;
    Ok(way)
}

/// The region of a memref in the loop of a block, from its accesses there.
fn found_of<'a>(
    alloc: Global,
    hashing: NameHashing,
    args: &'a [Arg],
    block: &FoundBlock<'a>,
    outside: &Result<Outside, RegionFault>,
    memref: &Name,
    uses: &[FoundUse<'a>],
) -> Result<Region, RegionFault>
    requires ready { ReadyBlock (start_ranges args.now) (block_of block.now) }
    requires outside { Meets (outside_at args.now (block_of block.now).way) (λ o. o) outside.now }
    requires uses { map seen uses.now ≡ uses_in memref.now (block_of block.now) }
    ensures { Meets (found_in args.now (block_of block.now) memref.now) (λ region. region) result }
{
    let sizes = sizes_of(args, memref);
    let way = block.way.as_slice();
    region_of_uses(alloc, hashing, args, way, outside, uses, sizes, false)
}

/// The lines of a block, by the first accesses of the memrefs in it.
#[tactic(auto, using(crate::proofs::Pieces::block_begins, crate::proofs::Pieces::block_goes_on, crate::proofs::Pieces::block_ends))]
pub(crate) fn put_block<'a>(
    alloc: Global,
    hashing: NameHashing,
    args: &'a [Arg],
    block: &FoundBlock<'a>,
    number: usize,
    out: &mut Vec<u8>,
) -> Result<(), AllocError>
    requires { ReadyBlock (start_ranges args.now) (block_of block.now) }
    ensures { OnOk result (out.new.items ≡ out.old.items ++ flat_map line_text (block_lines args.now number (block_of block.now))) }
{
    let names = outer_names(alloc, args, block.way.as_slice())?;
    let outside = outside_of(alloc, hashing, args, block.way.as_slice());
    let outside = &outside;
    let memrefs = accessed_in(alloc, block.body)?;
    let mut way = inner_way(alloc, block)?;
    for memref in memrefs.as_slice() {
        let uses = uses_within(alloc, memref.name, block.body, &mut way)?;
        let found = found_of(alloc, hashing, args, block, outside, memref.name, &uses);
        put_line(alloc, out, number, block.line, memref.name, &names, found)?;
    }
    Ok(())
}
