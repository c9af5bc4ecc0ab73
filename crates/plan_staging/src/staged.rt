// The placements of a plan, staged in the text of their module.
ghost use Rattle.std.specs.Prelude.{◌≡◌, IfOk, None};
ghost use Rattle.affine_ast.specs.PlainLimits.{plain_fault};
ghost use Rattle.nest_domain.specs.declared.plan.Options.{Options as TheOptions};
ghost use Rattle.plan_laws.specs.Plan as plans;
ghost use Rattle.plan_staging.specs.Decided.{IsPlanFor};
ghost use Rattle.plan_theorem.specs.Law.{IsWritten, IsStagedModule};

use crate::placed::placed_all;
use affine_ast::{Arg, Module, Verified};
use lined_texts::lined_text;
use nest_domain::Plan;
use placement_stage::stage_all;
use sqlite_items::Items;
use std::alloc::{AllocError, Global};

fn copied_args(alloc: Global, args: &[Arg]) -> Result<Items<Arg>, AllocError>
    ensures { IfOk result (λ copies. copies ≡ args.now) }
{
    let mut copies = Items::new(alloc);
    for arg in args {
        copies.push(arg.copy(alloc)?)?;
    }
    Ok(copies)
}

/// The module with the placements of its plan, by transfers where `dma` says so, and else by copy loops. Its name stays.
///
/// # Errors
///
/// `AllocError`, for want of memory, and where a redirected access would have more than 2^32 - 1 operands.
#[tactic(auto, using(crate::proofs::Staging::all_may, crate::proofs::Staging::few_all, crate::proofs::Staging::may_stage, crate::proofs::Staging::is_staged, crate::proofs::Staging::is_valid))]
pub fn staged_by(
    alloc: Global,
    module: &Verified,
    plan: &Plan,
    dma: bool,
) -> Result<Verified, AllocError>
    requires plain { plain_fault «module».now.inner ≡ None }
    requires written { IsWritten «module».now.inner }
    requires plan { IsPlanFor dma «module».now.inner plan.now.decisions.items }
    ensures staged { (o : TheOptions) → o.dma ≡ dma → plan.now.decisions.items ≡ plans.plan o «module».now.inner → IfOk result (λ made. IsStagedModule o «module».now.inner made.inner) }
    ensures name { IfOk result (λ made. made.inner.name ≡ «module».now.inner.name) }
{
    let placed = placed_all(alloc, module, &plan.decisions, dma)?;
    let module = module.module();
    let text = lined_text(alloc, module.body.as_slice())?;
    let body = stage_all(alloc, &placed, text)?;
    Ok(Verified::seal(Module {
        name: module.name.copy(alloc)?,
        args: copied_args(alloc, module.args.as_slice())?,
        body,
    }))
}
