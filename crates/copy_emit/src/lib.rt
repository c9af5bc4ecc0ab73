//! A module with the placements of its plan, by copy loops; and the numbers of the names that templates make.
//!
//! `plan_theorem` and `numbered_names`, `specs/`, say which modules these are.
#![tactic(auto)]

ghost use Rattle.std.specs.Prelude.{◌≡◌, false, IfOk, None};
ghost use Rattle.affine_ast.specs.PlainLimits.{plain_fault};
ghost use Rattle.nest_domain.specs.declared.plan.Options.{Options as TheOptions};
ghost use Rattle.plan_laws.specs.Plan as plans;
ghost use Rattle.plan_staging.specs.Decided.{IsPlanFor};
ghost use Rattle.plan_theorem.specs.Law.{IsWritten, IsStagedModule};

use affine_ast::Verified;
use nest_domain::Plan;
pub use number_names::number_names;
use plan_staging::staged_by;
use std::alloc::{AllocError, Global};

/// The module with the placements of its plan: loops copy each box in before the placement's loop and out behind it.
///
/// # Errors
///
/// `AllocError`, for want of memory, and where a redirected access would have more than 2^32 - 1 operands.
pub fn stage_loops(alloc: Global, module: &Verified, plan: &Plan) -> Result<Verified, AllocError>
    requires plain { plain_fault «module».now.inner ≡ None }
    requires written { IsWritten «module».now.inner }
    requires plan { IsPlanFor false «module».now.inner plan.now.decisions.items }
    ensures staged { (o : TheOptions) → o.dma ≡ false → plan.now.decisions.items ≡ plans.plan o «module».now.inner → IfOk result (λ made. IsStagedModule o «module».now.inner made.inner) }
    ensures name { IfOk result (λ made. made.inner.name ≡ «module».now.inner.name) }
{
    staged_by(alloc, module, plan, false)
}
