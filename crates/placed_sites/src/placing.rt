// A placement that is to be tested: where it stands, and what is copied.
ghost use Rattle.std.specs.Prelude.{◌≡◌, ◌+◌, ◌<◌, ◌≤◌, ◌^◌, [], ◌∷◌, map, not, ◌&&◌, length, Some, IfOk};
ghost use Rattle.nest_domain.specs.Steps.{header_of};
ghost use Rattle.nest_domain.specs.Ways.{loop_count};
ghost use Rattle.placement_covers.specs.Law.{is_covered};
ghost use Rattle.placement_stage.specs.Places.{spot_of};
ghost use Rattle.placement_texts.specs.Spots.{Spot};
ghost use Rattle.plan_laws.specs.Plan.{type_of};
ghost use Rattle.text_limits.specs.Adding.{condition_count};
ghost use Rattle.hoisted_sites.specs.Sites.{IsLoopPath};
ghost use Rattle.hoisted_sites.specs.Hoisting.{module_of, text_of, IsHoisted};
ghost use Rattle.placed_sites.specs.Placing.{IsSiteOf, IsCandidate};

use access_region::covers;
use affine_ast::{MemrefType, Name};
use hoisted_sites::{Asking, Site, argument_number, has_store};
use nest_domain::{Step, outer_names};
use placement_code::Placement;
use plan_laws::loops_are_named;
use planned_placements::{Copied, placement, regions_may_be_placed};
use std::alloc::{AllocError, Global};
use text_limits::Round;

/// A placement at its site, with how many loops and conditions stand round it.
#[derive(Drop)]
pub struct Candidate<'a> {
    pub site: Site<'a>,
    pub placed: Placement,
    pub round: Round,
}

/// The number of a block or of an argument; there are fewer than 2^32 of either.
pub fn as_number(number: usize) -> Result<u32, AllocError>
    ensures { IfOk result (λ same. same ≡ number) }
{
    match u32::try_from(number) {
        Ok(number) => Ok(number),
        Err(_) => Err(AllocError),
    }
}

fn with_step(round: Round, step: &Step<'_>) -> Round
    requires loops { round.loops < 2 ^ 63 }
    requires ifs { round.ifs < 2 ^ 63 }
    ensures loops { result.loops ≡ round.loops + loop_count (header_of step.now ∷ []) }
    ensures ifs { result.ifs ≡ round.ifs + condition_count (header_of step.now ∷ []) }
{
    let (loops, ifs) = (round.loops, round.ifs);
    match step {
        Step::Round { .. } => Round {
            loops: loops + 1,
            ifs,
        },
        Step::Given { .. } => Round {
            loops,
            ifs: ifs + 1,
        },
        Step::Except { .. } => Round {
            loops,
            ifs: ifs + 1,
        },
        Step::Behind { .. } => round,
        Step::Past { .. } => round,
    }
}

/// How many loops and conditions stand round the end of a way.
fn round_of(way: &[Step<'_>]) -> Round
    ensures loops { result.loops ≡ loop_count (map header_of way.now) }
    ensures ifs { result.ifs ≡ condition_count (map header_of way.now) }
{
    let mut round = Round { loops: 0, ifs: 0 };
    for step in way {
        round = with_step(round, step);
    }
    round
}

/// Whether a region is read in: unless it is covered and transfers copy it.
fn reads_in<'a>(
    alloc: Global,
    asking: &Asking<'a>,
    memref: &Name,
    ty: &MemrefType,
    site: &Site<'a>,
) -> Result<bool, AllocError>
    requires path { IsLoopPath (text_of asking.now) site.now.at }
    requires typed { type_of (module_of asking.now).args memref.now ≡ Some ty.now }
    ensures { IfOk result (λ reads. reads ≡ not (asking.now.options.dma && is_covered (module_of asking.now).args (text_of asking.now) memref.now (spot_of site.now.at.steps) site.now.region)) }
{
    if !asking.options.dma {
        return Ok(true);
    }
    loops_are_named();
    let verified = asking.verified;
    let number = as_number(argument_number(verified.module().args.as_slice(), memref))?;
    let covered = covers(alloc, verified, &site.at, number, &site.region)?;
    Ok(!covered)
}

/// The placement of a memref at its site, with this number.
pub fn placed_at<'a>(
    alloc: Global,
    asking: &Asking<'a>,
    memref: &Name,
    ty: &MemrefType,
    site: Site<'a>,
    number: u32,
) -> Result<Candidate<'a>, AllocError>
    requires site { IsSiteOf asking.now memref.now ty.now site }
    requires typed { type_of (module_of asking.now).args memref.now ≡ Some ty.now }
    requires few { number < 262144 }
    ensures { IfOk result (λ made. IsCandidate asking.now memref.now ty.now number site.entry made) }
{
    regions_may_be_placed();
    let copied = Copied {
        reads: reads_in(alloc, asking, memref, ty, &site)?,
        writes: has_store(site.uses.as_slice()),
        dma: asking.options.dma,
    };
    let block = asking.block(alloc, &site.at)?;
    let way = block.way.as_slice();
    let names = outer_names(alloc, asking.verified.module().args.as_slice(), way)?;
    let dims = site.region.dims.as_slice();
    let placed = placement(alloc, memref, ty, names.as_slice(), dims, copied, number)?;
    let round = round_of(way);
    Ok(Candidate {
        site,
        placed,
        round,
    })
}
