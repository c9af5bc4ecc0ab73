// The placements that decisions say.
ghost use Rattle.std.specs.Prelude.{◌≡◌, ◌<◌, ◌≤◌, ◌∷◌, [], All, IfOk, OnOk, Some, length};
ghost use Rattle.affine_ast.specs.Nest.{nest};
ghost use Rattle.placement_code.specs.Placed.{MayBeWritten};
ghost use Rattle.placement_stage.specs.All.{AreSteps};
ghost use Rattle.placement_stage.specs.Places.{spot_of};
ghost use Rattle.placement_regions.specs.Sites.{way_to, outer_names};
ghost use Rattle.plan_staging.specs.Decided.{of_argument, of_outcome, placements_of, NamesLoop, IsFound, MayBeMade, IsMadeOf};
ghost use Rattle.plan_staging.specs.Made.{AreStepsOf, MayBeWrittenAt, MayBeWrittenWhere, IsAdded};

use affine_ast::{Arg, ArgKind, Name, Path, Verified};
use nest_domain::{Decision, Outcome, Region, outer_names, way_to};
use placement_stage::PlacedAt;
use planned_placements::{Copied, placement};
use std::alloc::{AllocError, Global};

/// The outer variables of the loop that a path names.
#[tactic(auto, using(crate::proofs::Placing::loop_is))]
fn outer_names_at(alloc: Global, module: &Verified, at: &Path) -> Result<Vec<Name>, AllocError>
    requires { NamesLoop (nest «module».now.inner.body) at.now.steps }
    ensures { let m = «module».now.inner in IfOk result (λ names. names.items ≡ outer_names m.args (way_to (spot_of at.now.steps) (nest m.body))) }
{
    let module = module.module();
    let Some(found) = way_to(alloc, module.body.as_slice(), at)? else {
        return Err(AllocError);
    };
    outer_names(alloc, module.args.as_slice(), found.way.as_slice())
}

/// The placement of this number, of a memref argument at the loop that a path names.
#[tactic(auto, using(crate::proofs::Placing::may_be_placed, crate::proofs::Placing::one_placed))]
fn placed_at(
    alloc: Global,
    module: &Verified,
    arg: &Arg,
    at: &Path,
    region: &Region,
    copied: Copied,
    number: u32,
) -> Result<PlacedAt, AllocError>
    requires number { number < 262144 }
    requires found { IsFound copied.dma «module».now.inner.args (nest «module».now.inner.body) arg.now at.now.steps region.now }
    ensures placed { let m = «module».now.inner in IfOk result (λ x. AreSteps (x ∷ []) (of_argument copied.dma m.args (nest m.body) number (spot_of at.now.steps) region.now copied.reads copied.writes (Some arg.now))) }
    ensures written { IfOk result (λ x. MayBeWritten x.placed) }
{
    let ArgKind::Memref(ty) = &arg.kind else {
        return Err(AllocError);
    };
    let names = outer_names_at(alloc, module, at)?;
    let placed = placement(alloc, &arg.name, ty, &names, &region.dims, copied, number)?;
    Ok(PlacedAt {
        placed,
        at: at.copy(alloc)?,
    })
}

/// The placement that a decision says, where it stages its memref.
#[tactic(auto, using(crate::proofs::Placing::found_within, crate::proofs::Placing::found_here, crate::proofs::Placing::said_by))]
fn placed_by(
    alloc: Global,
    module: &Verified,
    decision: &Decision,
    dma: bool,
    number: u32,
) -> Result<Option<PlacedAt>, AllocError>
    requires number { number < 262144 }
    requires may { MayBeMade dma «module».now.inner.args (nest «module».now.inner.body) decision.now.memref decision.now.outcome }
    ensures placed { let m = «module».now.inner in IfOk result (λ x. AreStepsOf x (of_outcome dma m.args (nest m.body) number decision.now.memref decision.now.outcome)) }
    ensures written { IfOk result MayBeWrittenWhere }
{
    let Outcome::Staged {
        at,
        region,
        reads,
        writes,
        ..
    } = &decision.outcome
    else {
        return Ok(None);
    };
    let args = module.module().args.as_slice();
    let arg = &args[decision.memref as usize];
    let copied = Copied {
        reads: *reads,
        writes: *writes,
        dma,
    };
    Ok(Some(placed_at(alloc, module, arg, at, region, copied, number)?))
}

/// Adds the placement that a decision says, where it stages its memref.
#[tactic(auto, using(crate::proofs::Placing::added_one, crate::proofs::Placing::added_none))]
fn add_placed(
    alloc: Global,
    module: &Verified,
    decision: &Decision,
    dma: bool,
    placed: &mut Vec<PlacedAt>,
) -> Result<(), AllocError>
    requires few { length placed.old.items < 262144 }
    requires may { MayBeMade dma «module».now.inner.args (nest «module».now.inner.body) decision.now.memref decision.now.outcome }
    ensures { let m = «module».now.inner in OnOk result (IsAdded placed.old.items placed.new.items (of_outcome dma m.args (nest m.body) (length placed.old.items) decision.now.memref decision.now.outcome)) }
{
    let number = placed.len() as u32;
    let Some(one) = placed_by(alloc, module, decision, dma, number)? else {
        return Ok(());
    };
    placed.push(one)?;
    Ok(())
}

/// The placements of all decisions, in their order.
#[tactic(auto, using(crate::proofs::Placing::next_placed, crate::proofs::Placing::next_written, crate::proofs::Placing::next_few, crate::proofs::Placing::placed_end))]
pub(crate) fn placed_all(
    alloc: Global,
    module: &Verified,
    decisions: &[Decision],
    dma: bool,
) -> Result<Vec<PlacedAt>, AllocError>
    requires few { length decisions.now ≤ 65536 }
    requires may { let m = «module».now.inner in All (IsMadeOf dma m.args (nest m.body)) decisions.now }
    ensures placed { let m = «module».now.inner in IfOk result (λ xs. AreSteps xs.items (placements_of dma m.args (nest m.body) decisions.now)) }
    ensures written { IfOk result (λ xs. All MayBeWrittenAt xs.items) }
{
    let mut placed = Vec::new(alloc);
    for decision in decisions {
        add_placed(alloc, module, decision, dma, &mut placed)?;
    }
    Ok(placed)
}
