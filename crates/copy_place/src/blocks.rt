// The plan of a module, without doubling.
ghost use Rattle.std.specs.Prelude.{◌≡◌, ◌+◌, ◌<◌, false, [], ◌∷◌, get_or, length, IfOk, OnOk, None};
ghost use Rattle.affine_ast.specs.PlainLimits.{plain_fault};
ghost use Rattle.placement_stage.specs.Places.{spot_of};
ghost use Rattle.text_places.specs.Blocks.{accessed};
ghost use Rattle.text_places.specs.Finding.{block_of};
ghost use Rattle.plan_laws.specs.Plan.{argument_number, firsts, accesses_in, plan};
ghost use Rattle.plan_theorem.specs.Law.{IsWritten};
ghost use Rattle.plan_tests.specs.Testing.{AreFew};
ghost use Rattle.hoisted_sites.specs.Sites.{StandsAt};
ghost use Rattle.hoisted_sites.specs.Hoisting.{module_of, text_of, IsBlock};
ghost use Rattle.copy_place.specs.Planning.{blocks_of, IsBlockOf, IsPlannedTo};

use crate::settle::decided;
use affine_ast::{Name, Verified};
use hoisted_sites::{Asking, argument_number};
use loop_paths::{LoopPath, loops_at, paths_are_spots};
use name_hash::NameHashing;
use nest_domain::{Decision, Options, Outcome, Plan};
use placed_sites::as_number;
use plan_blocks::{blocks_are_loops, memrefs_are_firsts};
use plan_tests::Tests;
use std::alloc::{AllocError, Global};
use text_places::{FoundBlock, accessed_in, blocks_at};
use untested_plans::{placements_stand_aside, plan_is_untested};

/// The plan so far: its decisions, and the tests of the text with its placements.
#[derive(Drop)]
struct Planning {
    decisions: Vec<Decision>,
    tests: Tests,
}

/// What is decided of a memref in the block of this number, which begins at this line.
fn decision(
    asking: &Asking<'_>,
    block: u32,
    line: u32,
    memref: &Name,
    outcome: Outcome,
) -> Result<Decision, AllocError>
    ensures { IfOk result (λ made. made ≡ record { block = block; line = line; memref = argument_number (module_of asking.now).args memref.now; outcome = outcome }) }
{
    let verified = asking.verified;
    let number = argument_number(verified.module().args.as_slice(), memref);
    Ok(Decision {
        block,
        line,
        memref: as_number(number)?,
        outcome,
    })
}

impl Planning {
    /// Decides on the memrefs of the next block, by first access.
    fn decide_block<'a>(
        &mut self,
        alloc: Global,
        asking: &Asking<'a>,
        number: u32,
        path: &LoopPath,
        block: &FoundBlock<'a>,
    ) -> Result<(), AllocError>
        requires plain { plain_fault (module_of asking.now) ≡ None }
        requires written { IsWritten (module_of asking.now) }
        requires block { IsBlockOf asking.now number path.now (block_of block.now) }
        requires planned { IsPlannedTo asking.now number self.old }
        ensures { OnOk result (IsPlannedTo asking.now (number + 1) self.new) }
    {
        placements_stand_aside();
        self.tests.go_to(alloc, path)?;
        let outside = asking.outside(alloc, block);
        let memrefs = accessed_in(alloc, block.body)?;
        for memref in memrefs.as_slice() {
            let name = memref.name;
            let outcome = decided(alloc, asking, name, path, block, &outside, &mut self.tests)?;
            let decision = decision(asking, number, block.line, name, outcome)?;
            self.decisions.push(decision)?;
        }
        Ok(())
    }
}

/// The plan of a module that meets V13, without doubling: for each loop at the options' depth, in text order, a decision on each memref
/// that is accessed there, in the order of first accesses.
///
/// # Errors
///
/// `AllocError`, for want of memory, and where there are more than 2^32 arguments or statements in a region.
pub fn plan(alloc: Global, module: &Verified, options: &Options) -> Result<Plan, AllocError>
    requires plain { plain_fault «module».now.inner ≡ None }
    requires written { IsWritten «module».now.inner }
    requires single { options.now.double ≡ false }
    ensures { IfOk result (λ made. made.decisions.items ≡ plan options.now «module».now.inner) }
{
    blocks_are_loops();
    memrefs_are_firsts();
    paths_are_spots();
    plan_is_untested();
    let body = module.module().body.as_slice();
    let paths = loops_at(alloc, options.depth as u32, body)?;
    let blocks = blocks_at(alloc, options.depth as u32, body)?;
    let asking = Asking {
        hashing: NameHashing::of_module(module.module()),
        verified: module,
        options: *options,
    };
    let mut planning = Planning {
        decisions: Vec::new(alloc),
        tests: Tests::of(alloc, options, module),
    };
    for (place, block) in blocks.as_slice().iter().enumerate() {
        let number = as_number(place)?;
        let path = &paths.as_slice()[place];
        planning.decide_block(alloc, &asking, number, path, block)?;
    }
    Ok(Plan {
        decisions: planning.decisions,
    })
}
