// What more than one command demands of a valid module, each with the refusal where it fails.
ghost use Rattle.std.specs.Prelude.{◌≡◌, ◌≤◌, None, length, MatchResult};
ghost use Rattle.affine_ast.specs.PlainLimits.{plain_fault};
ghost use Rattle.direct_meaning.specs.Work as meaning;
ghost use Rattle.mem_image.specs.Images as image;
ghost use Rattle.affine_driver.specs.Refusals.{BreaksLimits, IsTooMuch, OrMemory, SpellsNoImage, StopsAt, work_limit};

use crate::limits::{SOURCE_LIMIT, WORK_LIMIT};
use crate::refusal::Refusal;
use affine_ast::{Image, Verified};
use bus_model::Verdict;
use mem_image::parse_image;
use nest_meaning::work;
use std::alloc::Global;

/// The module meets V13.
pub(crate) fn meet_limits(verified: &Verified) -> Result<(), Refusal>
    ensures { MatchResult result (λ _. plain_fault verified.now.inner ≡ None) (λ refusal. BreaksLimits verified.now.inner refusal) }
{
    match verified.plain_fault() {
        Some(line) => Err(Refusal::Invalid { line, rule: 13 }),
        None => Ok(()),
    }
}

/// The memory that the text of an image spells.
#[tactic(auto, using(crate::proofs::Refusals::no_image))]
pub(crate) fn memory_of(alloc: Global, verified: &Verified, text: &[u8]) -> Result<Image, Refusal>
    requires { length text.now ≤ SOURCE_LIMIT }
    ensures { MatchResult result (λ memory. image.Spells text.now verified.now.inner memory) (λ refusal. OrMemory (SpellsNoImage text.now verified.now.inner) refusal) }
{
    let memory = parse_image(alloc, text, verified)?;
    Ok(memory)
}

/// The work of the module is within the limit.
pub(crate) fn keep_within(alloc: Global, verified: &Verified) -> Result<(), Refusal>
    ensures { MatchResult result (λ _. meaning.work verified.now.inner ≤ work_limit) (λ refusal. OrMemory (IsTooMuch verified.now.inner) refusal) }
{
    let work = work(alloc, verified)?;
    if work > WORK_LIMIT {
        Err(Refusal::Turns { work })
    } else {
        Ok(())
    }
}

/// The run came to its end.
pub(crate) fn come_to_end(verdict: Verdict) -> Result<(), Refusal>
    ensures { MatchResult result (λ _. verdict ≡ Verdict.End) (λ refusal. StopsAt verdict refusal) }
{
    match verdict {
        Verdict::End => Ok(()),
        Verdict::Fault(kind) => Err(Refusal::Fault(kind)),
    }
}
