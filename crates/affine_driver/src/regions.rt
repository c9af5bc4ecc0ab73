// The command `regions`.
ghost use Rattle.std.specs.Prelude.{◌≡◌};
ghost use Rattle.affine_driver.specs.Behaviour.{Limited};
ghost use Rattle.affine_driver.specs.Outcome.{Answered, Gives};
ghost use Rattle.module_regions.specs.Lines.{regions_text};

use crate::command::RegionsOptions;
use crate::refusal::Refusal;
use affine_ast::Verified;
use module_regions::region_lines;
use std::alloc::Global;

/// The lines of a valid module's regions, or why there are none.
#[tactic(auto, using(crate::proofs::Refusals::no_lines))]
pub(crate) fn regions_output(
    alloc: Global,
    options: RegionsOptions,
    verified: &Verified,
) -> Result<Vec<u8>, Refusal>
    ensures { Answered result (λ output. output.items) (Limited verified.now.inner (Gives (λ output. output ≡ regions_text verified.now.inner options.depth))) }
{
    let output = region_lines(alloc, verified, options.depth)?;
    Ok(output)
}
