// The lines of a module.
ghost use Rattle.std.specs.Prelude.{◌≡◌, ◌++◌, map, OnOk};
ghost use Rattle.std.specs.List.{flat_map};
ghost use Rattle.constraint_set.specs.Lists.{Each};
ghost use Rattle.direct_meaning.specs.Work.{start_ranges};
ghost use Rattle.text_places.specs.Finding.{block_of};
ghost use Rattle.module_regions.specs.Lines.{line_text, lines_from, Answers};
ghost use Rattle.module_regions.specs.Ready.{ReadyBlock};

use crate::block::put_block;
use crate::fault::LinesFault;
use affine_ast::{Arg, Verified};
use name_hash::NameHashing;
use std::alloc::{AllocError, Global};
use text_places::{FoundBlock, blocks_at, texts_are_ready};

/// The lines of blocks, which are numbered from 0.
#[tactic(auto, using(crate::proofs::Pieces::blocks_go_on, crate::proofs::Pieces::blocks_end))]
fn put_blocks<'a>(
    alloc: Global,
    hashing: NameHashing,
    args: &'a [Arg],
    blocks: &[FoundBlock<'a>],
    out: &mut Vec<u8>,
) -> Result<(), AllocError>
    requires { Each (ReadyBlock (start_ranges args.now)) (map block_of blocks.now) }
    ensures { OnOk result (out.new.items ≡ out.old.items ++ flat_map line_text (lines_from args.now 0 (map block_of blocks.now))) }
{
    for (number, block) in blocks.iter().enumerate() {
        put_block(alloc, hashing, args, block, number, out)?;
    }
    Ok(())
}

/// The region lines of a module for its loops with exactly so many loops round them, in text order.
///
/// # Errors
///
/// `Plain` where a statement breaks V13; `Memory` for want of memory.
#[tactic(auto, using(crate::proofs::Blocked::found_ready, crate::proofs::Pieces::lines_made))]
pub fn region_lines(alloc: Global, verified: &Verified, depth: u8) -> Result<Vec<u8>, LinesFault>
    ensures { Answers verified.now.inner depth (λ text. text.items) result }
{
    if let Some(line) = verified.plain_fault() {
        return Err(LinesFault::Plain { line });
    }
    texts_are_ready();
    let module = verified.module();
    let args = module.args.as_slice();
    let blocks = blocks_at(alloc, depth as u32, module.body.as_slice())?;
    let hashing = NameHashing::of_module(module);
    let mut out = Vec::new(alloc);
    put_blocks(alloc, hashing, args, &blocks, &mut out)?;
    Ok(out)
}
