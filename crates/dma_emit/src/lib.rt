//! A module with the placements of its plan, by tagged transfers.
//!
//! `plan_theorem`, `specs/Law`, says which module that is.
#![tactic(auto)]

ghost use Rattle.std.specs.Prelude.{◌≡◌, true, IfOk, None};
ghost use Rattle.affine_ast.specs.PlainLimits.{plain_fault};
ghost use Rattle.nest_domain.specs.declared.plan.Options.{Options as TheOptions};
ghost use Rattle.plan_laws.specs.Plan as plans;
ghost use Rattle.plan_staging.specs.Decided.{IsPlanFor};
ghost use Rattle.plan_theorem.specs.Law.{IsWritten, IsStagedModule};

use affine_ast::Verified;
use nest_domain::Plan;
use plan_staging::staged_by;
use std::alloc::{AllocError, Global};

/// The module with the placements of its plan: a transfer and its wait stand before each placement's loop, unless its box is covered, and
/// behind it where the loop stores to the memref.
///
/// # Errors
///
/// `AllocError`, for want of memory, and where a redirected access would have more than 2^32 - 1 operands.
pub fn stage_dma(alloc: Global, module: &Verified, plan: &Plan) -> Result<Verified, AllocError>
    requires plain { plain_fault «module».now.inner ≡ None }
    requires written { IsWritten «module».now.inner }
    requires plan { IsPlanFor true «module».now.inner plan.now.decisions.items }
    ensures staged { (o : TheOptions) → o.dma ≡ true → plan.now.decisions.items ≡ plans.plan o «module».now.inner → IfOk result (λ made. IsStagedModule o «module».now.inner made.inner) }
    ensures name { IfOk result (λ made. made.inner.name ≡ «module».now.inner.name) }
{
    staged_by(alloc, module, plan, true)
}
