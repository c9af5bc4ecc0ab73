// The command `plain`.
ghost use Rattle.std.specs.Prelude.{◌≡◌, ◌≤◌, None, length};
ghost use Rattle.affine_ast.specs.PlainLimits.{plain_fault};
ghost use Rattle.direct_meaning.specs.Direct.{plain, verdict_of};
ghost use Rattle.direct_meaning.specs.Memory.{Fits};
ghost use Rattle.direct_meaning.specs.Work.{work};
ghost use Rattle.affine_driver.specs.declared.command.Command.TheVariants.{Plain};
ghost use Rattle.affine_driver.specs.Behaviour.{Makes};
ghost use Rattle.affine_driver.specs.Outcome.{Answered, Demands, Gives};
ghost use Rattle.affine_driver.specs.Output.{IsPlainOutput};
ghost use Rattle.affine_driver.specs.Refusals.{IsTooMuch, StopsAt, work_limit};

use crate::demands::{come_to_end, keep_within, meet_limits, memory_of};
use crate::limits::SOURCE_LIMIT;
use crate::refusal::Refusal;
use affine_ast::{Image, Verified};
use bus_model::Verdict;
use mem_image::print_image;
use nest_meaning::run_plain;
use std::alloc::Global;

/// What the run of a valid module leaves of a memory, printed, or why it leaves nothing.
fn run_from(alloc: Global, verified: &Verified, memory: Image) -> Result<Vec<u8>, Refusal>
    requires plain { plain_fault verified.now.inner ≡ None }
    requires fits { Fits verified.now.inner memory }
    ensures { Answered result (λ output. output.items) (Demands (IsTooMuch verified.now.inner) (λ (holds : Unit {0}). work verified.now.inner ≤ work_limit) (λ within. Demands (StopsAt (verdict_of (plain verified.now.inner memory))) (λ (holds : Unit {0}). verdict_of (plain verified.now.inner memory) ≡ Verdict.End) (λ ends. Gives (IsPlainOutput verified.now.inner memory)))) }
{
    let mut memory = memory;
    keep_within(alloc, verified)?;
    let verdict = run_plain(alloc, verified, &mut memory)?;
    come_to_end(verdict)?;
    let output = print_image(alloc, &memory, verified)?;
    Ok(output)
}

/// The printed final image of a valid module, from the initial image that a text spells, or why there is none.
pub(crate) fn plain_output(
    alloc: Global,
    verified: &Verified,
    text: &[u8],
) -> Result<Vec<u8>, Refusal>
    requires { length text.now ≤ SOURCE_LIMIT }
    ensures { Answered result (λ output. output.items) (Makes Plain verified.now.inner text.now) }
{
    meet_limits(verified)?;
    let memory = memory_of(alloc, verified, text)?;
    run_from(alloc, verified, memory)
}
