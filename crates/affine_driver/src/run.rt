// The command `run`.
ghost use Rattle.std.specs.Prelude.{◌≡◌, ◌≤◌, IfOk, length};
ghost use Rattle.direct_meaning.specs.Memory.{Fits};
ghost use Rattle.prompt_semantics.specs.Prompt.{prompt_verdict};
ghost use Rattle.overlap_runner.specs.Preparation.{RunsPromptly};
ghost use Rattle.affine_driver.specs.declared.command.Command.TheVariants.{Run};
ghost use Rattle.affine_driver.specs.Behaviour.{EndsWithin, Makes};
ghost use Rattle.affine_driver.specs.Command.{IsAllowed};
ghost use Rattle.affine_driver.specs.Outcome.{Answered, Gives};
ghost use Rattle.affine_driver.specs.Output.{IsRunOutput, prompted};

use crate::command::RunOptions;
use crate::demands::{come_to_end, keep_within, memory_of};
use crate::limits::SOURCE_LIMIT;
use crate::refusal::Refusal;
use affine_ast::{Image, Verified};
use bus_model::Verdict;
use dma_engine::Gate;
use mem_image::print_image;
use overlap_runner::prepare;
use std::alloc::{AllocError, Global};
use std::sync::Wait;
use std::thread::Threads;
use walk_program::make;

/// Runs a valid module from a memory, with engine threads beside this one. It may wait.
pub(crate) fn run_by_threads<R: Threads + Wait + Sync, G: Gate + Sync>(
    alloc: Global,
    rt: &R,
    gate: &G,
    options: RunOptions,
    verified: &Verified,
    memory: Image,
) -> Result<(Verdict, Image), AllocError>
    requires fits { Fits verified.now.inner memory }
    requires engines { 1 ≤ options.engines }
    ensures { IfOk result (λ ran. RunsPromptly (record { module_ = verified.now.inner; image = memory; filler = options.filler; capacity = options.capacity; engines = options.engines }) ran.0 ran.1) }
{
    let module = verified.module();
    let program = make(alloc, module)?;
    let copied = Verified::seal(module.copy(alloc)?);
    let RunOptions {
        capacity,
        filler,
        engines,
    } = options;
    let engines = u32::from(engines);
    let prepared = prepare(alloc, &program, copied, memory, filler, capacity, engines)?;
    Ok(prepared.run(rt, gate))
}

/// What the run by threads of a valid module leaves of a memory, printed, or why it leaves nothing.
fn run_from<R: Threads + Wait + Sync, G: Gate + Sync>(
    alloc: Global,
    rt: &R,
    gate: &G,
    options: RunOptions,
    verified: &Verified,
    memory: Image,
) -> Result<Vec<u8>, Refusal>
    requires fits { Fits verified.now.inner memory }
    requires engines { 1 ≤ options.engines }
    ensures { Answered result (λ output. output.items) (EndsWithin verified.now.inner (prompt_verdict (prompted options verified.now.inner memory)) (Gives (IsRunOutput verified.now.inner options memory))) }
{
    keep_within(alloc, verified)?;
    let (verdict, image) = run_by_threads(alloc, rt, gate, options, verified, memory)?;
    come_to_end(verdict)?;
    let output = print_image(alloc, &image, verified)?;
    Ok(output)
}

/// The printed image that the run by threads of a valid module leaves, from the initial image that a text spells, or why there is
/// none.
pub(crate) fn run_output<R: Threads + Wait + Sync, G: Gate + Sync>(
    alloc: Global,
    rt: &R,
    gate: &G,
    options: RunOptions,
    verified: &Verified,
    text: &[u8],
) -> Result<Vec<u8>, Refusal>
    requires allowed { IsAllowed (Run options) }
    requires short { length text.now ≤ SOURCE_LIMIT }
    ensures { Answered result (λ output. output.items) (Makes (Run options) verified.now.inner text.now) }
{
    let memory = memory_of(alloc, verified, text)?;
    run_from(alloc, rt, gate, options, verified, memory)
}
