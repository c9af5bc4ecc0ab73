// The placements of a plan, one staged after the other.
ghost use Rattle.std.specs.Prelude.{◌≡◌, IfOk};
ghost use Rattle.affine_ast.specs.Nest.{nest};
ghost use Rattle.placement_stage.specs.All.{staged_with, AllMayBeStaged, StepsAreStaged};

use crate::stage::stage_text;
use affine_ast::{Path, Stmt};
use placement_code::Placement;
use sqlite_items::Items;
use std::alloc::{AllocError, Global};

/// A placement, and the path of its loop among the statements that have a line.
#[derive(Drop)]
pub struct PlacedAt {
    pub placed: Placement,
    pub at: Path,
}

/// A text with the placements of a plan, staged in their order.
///
/// # Errors
///
/// As `stage_text`.
pub fn stage_all(
    alloc: Global,
    plan: &[PlacedAt],
    text: Items<Stmt>,
) -> Result<Items<Stmt>, AllocError>
    requires { AllMayBeStaged plan.now (nest text) }
    ensures { IfOk result (λ made. nest made ≡ staged_with plan.now (nest text)) }
{
    let mut made = text;
    for one in plan {
        made = stage_text(alloc, &one.placed, &one.at, made)?;
    }
    Ok(made)
}

/// A text with these placements is that of the steps of a plan which they are.
pub fn steps_are_staged()
    ensures { StepsAreStaged }
{}
