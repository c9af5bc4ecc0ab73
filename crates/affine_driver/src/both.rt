// The command `both`.
ghost use Rattle.std.specs.Prelude.{◌≡◌, ◌++◌, ◌≤◌, IfOk, OnOk, None, codes, length};
ghost use Rattle.affine_ast.specs.PlainLimits.{plain_fault};
ghost use Rattle.direct_meaning.specs.Direct.{plain, state_of, verdict_of};
ghost use Rattle.direct_meaning.specs.Memory.{Fits};
ghost use Rattle.mem_image.specs.Images.{printed};
ghost use Rattle.run_laws.specs.StaysFitting.{with_slow};
ghost use Rattle.stage_laws.specs.Law.{IsStageOf};
ghost use Rattle.affine_driver.specs.declared.command.Command.TheVariants.{Both};
ghost use Rattle.affine_driver.specs.Behaviour.{EndsWithin, Makes, WithImage};
ghost use Rattle.affine_driver.specs.Command.{IsAllowed};
ghost use Rattle.affine_driver.specs.Outcome.{Answered, Gives};
ghost use Rattle.affine_driver.specs.Output.{planning, running, IsBothOutput, IsRead, IsStageOutput};

use crate::command::{BothOptions, RunOptions};
use crate::demands::{come_to_end, keep_within, meet_limits, memory_of};
use crate::limits::SOURCE_LIMIT;
use crate::refusal::Refusal;
use crate::run::run_by_threads;
use crate::stage::{output_of, staged_by};
use affine_ast::{Image, Verified};
use bus_model::Verdict;
use dma_engine::Gate;
use mem_image::print_image;
use stage_output::stages_run;
use std::alloc::{AllocError, Global};
use std::sync::Wait;
use std::thread::Threads;

/// What the options of `both` ask of the run of a stage.
fn running(options: BothOptions) -> RunOptions
    ensures { result ≡ running options }
{
    let BothOptions {
        stage,
        filler,
        engines,
    } = options;
    RunOptions {
        capacity: stage.capacity,
        filler,
        engines,
    }
}

/// Runs the stage of a module by threads, within the capacity that it was staged for, from a memory of the module.
fn run_staged<R: Threads + Wait + Sync, G: Gate + Sync>(
    alloc: Global,
    rt: &R,
    gate: &G,
    options: BothOptions,
    original: &Verified,
    staged: &Verified,
    memory: Image,
) -> Result<(Verdict, Image), AllocError>
    requires engines { 1 ≤ options.engines }
    requires plain { plain_fault original.now.inner ≡ None }
    requires text { IsRead original.now.inner }
    requires fits { Fits original.now.inner memory }
    requires stage { IsStageOf (planning options.stage) original.now.inner staged.now.inner }
    ensures verdict { IfOk result (λ ran. ran.0 ≡ verdict_of (plain original.now.inner memory)) }
    ensures image { IfOk result (λ ran. ran.0 ≡ Verdict.End → ran.1 ≡ with_slow memory (state_of (plain original.now.inner memory)).slow) }
{
    stages_run();
    run_by_threads(alloc, rt, gate, running(options), staged, memory)
}

/// What stands behind the staged module: a line `---` and the printed image.
fn put_image(
    alloc: Global,
    out: &mut Vec<u8>,
    image: &Image,
    verified: &Verified,
) -> Result<(), AllocError>
    requires fits { Fits verified.now.inner image.now }
    ensures { OnOk result (out.new.items ≡ out.old.items ++ (codes "---\n" ++ printed verified.now.inner image.now)) }
{
    let text = print_image(alloc, image, verified)?;
    out.extend_from_slice(b"---\n")?;
    out.extend_from_slice(text.as_slice())
}

/// What the run of the staged module leaves of a memory, printed behind report and staged module, or why it leaves nothing.
fn both_from<R: Threads + Wait + Sync, G: Gate + Sync>(
    alloc: Global,
    rt: &R,
    gate: &G,
    options: BothOptions,
    verified: &Verified,
    staged: &Verified,
    output: Vec<u8>,
    memory: Image,
) -> Result<Vec<u8>, Refusal>
    requires engines { 1 ≤ options.engines }
    requires plain { plain_fault verified.now.inner ≡ None }
    requires text { IsRead verified.now.inner }
    requires stage { IsStageOf (planning options.stage) verified.now.inner staged.now.inner }
    requires output { IsStageOutput options.stage verified.now.inner output.items }
    requires fits { Fits verified.now.inner memory }
    ensures { Answered result (λ output. output.items) (EndsWithin staged.now.inner (verdict_of (plain verified.now.inner memory)) (Gives (IsBothOutput options.stage verified.now.inner memory))) }
{
    let mut output = output;
    keep_within(alloc, staged)?;
    let (verdict, image) = run_staged(alloc, rt, gate, options, verified, staged, memory)?;
    come_to_end(verdict)?;
    put_image(alloc, &mut output, &image, verified)?;
    Ok(output)
}

/// What `both` writes of a module with its stage and their output, and the initial image that a text spells, or why it writes nothing.
fn both_of<R: Threads + Wait + Sync, G: Gate + Sync>(
    alloc: Global,
    rt: &R,
    gate: &G,
    options: BothOptions,
    verified: &Verified,
    staged: &Verified,
    output: Vec<u8>,
    text: &[u8],
) -> Result<Vec<u8>, Refusal>
    requires engines { 1 ≤ options.engines }
    requires plain { plain_fault verified.now.inner ≡ None }
    requires read { IsRead verified.now.inner }
    requires stage { IsStageOf (planning options.stage) verified.now.inner staged.now.inner }
    requires output { IsStageOutput options.stage verified.now.inner output.items }
    requires short { length text.now ≤ SOURCE_LIMIT }
    ensures { Answered result (λ output. output.items) (WithImage verified.now.inner text.now (λ memory. EndsWithin staged.now.inner (verdict_of (plain verified.now.inner memory)) (Gives (IsBothOutput options.stage verified.now.inner memory)))) }
{
    let memory = memory_of(alloc, verified, text)?;
    both_from(alloc, rt, gate, options, verified, staged, output, memory)
}

/// What `both` writes of a valid module and the initial image that a text spells, or why it writes nothing.
pub(crate) fn both_output<R: Threads + Wait + Sync, G: Gate + Sync>(
    alloc: Global,
    rt: &R,
    gate: &G,
    options: BothOptions,
    verified: &Verified,
    text: &[u8],
) -> Result<Vec<u8>, Refusal>
    requires allowed { IsAllowed (Both options) }
    requires text { IsRead verified.now.inner }
    requires short { length text.now ≤ SOURCE_LIMIT }
    ensures { Answered result (λ output. output.items) (Makes (Both options) verified.now.inner text.now) }
{
    meet_limits(verified)?;
    let (plan, staged) = staged_by(alloc, options.stage, verified)?;
    let output = output_of(alloc, options.stage, verified, &plan, &staged)?;
    both_of(alloc, rt, gate, options, verified, &staged, output, text)
}
