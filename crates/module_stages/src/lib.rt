//! The module that staging makes of a module and its plan, in code: the placements, subscripts as the grammar reads them, numbered names.
//!
//! `stage_laws`, `specs/Law`, says which module that is, and that it is valid and runs as the original.
#![tactic(auto)]

ghost use Rattle.std.specs.Prelude.{◌≡◌, IfOk, None};
ghost use Rattle.affine_ast.specs.PlainLimits.{plain_fault};
ghost use Rattle.nest_domain.specs.declared.plan.Options.{Options as TheOptions};
ghost use Rattle.plan_laws.specs.Plan as plans;
ghost use Rattle.plan_staging.specs.Decided.{IsPlanFor};
ghost use Rattle.plan_theorem.specs.Law.{IsWritten, IsStagedModule};
ghost use Rattle.normal_texts.specs.Texts.{IsNormal};
ghost use Rattle.stage_laws.specs.Law.{IsStageOf};

use affine_ast::Verified;
use copy_emit::{number_names, stage_loops};
use dma_emit::stage_dma;
use nest_domain::Plan;
use normal_modules::normal_module;
use std::alloc::{AllocError, Global};

/// The module with the placements of its plan, by transfers where `dma` says so, and else by copy loops.
fn placed(alloc: Global, module: &Verified, plan: &Plan, dma: bool) -> Result<Verified, AllocError>
    requires plain { plain_fault «module».now.inner ≡ None }
    requires written { IsWritten «module».now.inner }
    requires plan { IsPlanFor dma «module».now.inner plan.now.decisions.items }
    ensures staged { (o : TheOptions) → o.dma ≡ dma → plan.now.decisions.items ≡ plans.plan o «module».now.inner → IfOk result (λ made. IsStagedModule o «module».now.inner made.inner) }
    ensures name { IfOk result (λ made. made.inner.name ≡ «module».now.inner.name) }
{
    if dma {
        stage_dma(alloc, module, plan)
    } else {
        stage_loops(alloc, module, plan)
    }
}

/// The module with its subscripts as the grammar reads them.
#[tactic(auto, using(crate::proofs::Stages::stays_valid))]
fn ordered(alloc: Global, module: &Verified) -> Result<Verified, AllocError>
    ensures normal { IfOk result (λ made. IsNormal «module».now.inner made.inner) }
    ensures name { IfOk result (λ made. made.inner.name ≡ «module».now.inner.name) }
{
    Ok(Verified::seal(normal_module(alloc, module.module())?))
}

/// The stage of a module, by its plan: with transfers where `dma` says so, and else with copy loops.
///
/// # Errors
///
/// `AllocError`, for want of memory, and where a map would have more than 2^32 - 1 operands.
#[tactic(auto, using(crate::proofs::Stages::is_stage))]
pub fn stage_module(
    alloc: Global,
    module: &Verified,
    plan: &Plan,
    dma: bool,
) -> Result<Verified, AllocError>
    requires plain { plain_fault «module».now.inner ≡ None }
    requires written { IsWritten «module».now.inner }
    requires plan { IsPlanFor dma «module».now.inner plan.now.decisions.items }
    ensures { (o : TheOptions) → o.dma ≡ dma → plan.now.decisions.items ≡ plans.plan o «module».now.inner → IfOk result (λ made. IsStageOf o «module».now.inner made.inner) }
{
    let placed = placed(alloc, module, plan, dma)?;
    let ordered = ordered(alloc, &placed)?;
    number_names(alloc, &ordered)
}
