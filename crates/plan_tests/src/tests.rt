// The tests of a placement, kept from one decision to the next.
ghost use Rattle.std.specs.Prelude.{◌≡◌, ◌<◌, ◌^◌, [], map, IfOk, OnOk};
ghost use Rattle.affine_ast.specs.PlainLimits.{plain_fault};
ghost use Rattle.affine_ast.specs.Sizes.{product};
ghost use Rattle.placement_code.specs.Placed.{MayBeWritten};
ghost use Rattle.placement_texts.specs.Template.{dim_extents};
ghost use Rattle.text_places.specs.Finding.{seen};
ghost use Rattle.plan_tests.specs.Testing.{TestsFor, AreFew, Goes, Tries};

use crate::bytes::box_bytes;
use affine_ast::Verified;
use loop_paths::LoopPath;
use nest_domain::{Cause, Options};
use placement_code::Placement;
use staged_peaks::Live;
use std::alloc::{AllocError, Global};
use text_limits::{Round, Sums, limits_are_told, placements_are_told, sums_of};
use text_places::FoundUse;

/// What the tests ask of the text so far: its sums, its live bytes, and how many placements it has.
#[derive(Drop)]
pub struct Tests {
    capacity: u64,
    number: u32,
    sums: Sums,
    live: Live,
}

impl Tests {
    /// Those of a module's own text, before its first block.
    pub fn of(alloc: Global, options: &Options, verified: &Verified) -> Tests
        ensures tests { TestsFor options.now «verified».now.inner [] [] result }
        ensures few { AreFew result }
    {
        let round = Round { loops: 0, ifs: 0 };
        Tests {
            capacity: options.capacity,
            number: 0,
            sums: sums_of(verified.module().body.as_slice(), round),
            live: Live::new(alloc),
        }
    }

    /// How many placements there are.
    pub fn number(&self) -> u32
        ensures { result ≡ self.now.number }
    {
        self.number
    }

    /// Goes to the next block.
    ///
    /// # Errors
    ///
    /// `AllocError`, for want of memory alone.
    pub fn go_to(&mut self, alloc: Global, next: &LoopPath) -> Result<(), AllocError>
        requires few { AreFew self.old }
        ensures went { OnOk result (Goes self.old next.now self.new) }
        ensures few { AreFew self.new }
    {
        self.live.go_to(alloc, next)
    }

    /// Takes a placement at the loop that has so many loops round it, of those on the way to the block, where no test refuses it; else
    /// gives the cause and changes nothing: the capacity comes before the limits. So many loops and conditions stand round its loop, and
    /// the memref has these uses in it.
    ///
    /// # Errors
    ///
    /// `AllocError`, for want of memory alone.
    pub fn tried(
        &mut self,
        alloc: Global,
        placed: &Placement,
        place: usize,
        round: Round,
        uses: &[FoundUse<'_>],
    ) -> Result<Option<Cause>, AllocError>
        requires few { AreFew self.old }
        requires written { MayBeWritten placed.now }
        requires narrow { product (dim_extents placed.now.dims) < 2 ^ 32 }
        ensures tried { IfOk result (λ cause. Tries self.old placed.now place round (map seen uses.now) cause self.new) }
        ensures few { AreFew self.new }
    {
        limits_are_told();
        placements_are_told();
        let bytes = box_bytes(placed);
        let Some(peak) = self.live.peak_with(place, bytes) else {
            return Ok(Some(Cause::Capacity));
        };
        if peak > self.capacity {
            return Ok(Some(Cause::Capacity));
        }
        let sums = self.sums.with_placement(alloc, placed, round, uses)?;
        if !sums.are_within() {
            return Ok(Some(Cause::Size));
        }
        self.sums = sums;
        self.live.add(place, bytes);
        self.number += 1;
        Ok(None)
    }
}
