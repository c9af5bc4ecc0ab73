// The command `order`.
ghost use Rattle.std.specs.Prelude.{◌≡◌, ◌++◌, ◌≤◌, OnOk, IfOk, length};
ghost use Rattle.direct_meaning.specs.Memory.{Fits};
ghost use Rattle.mem_image.specs.Images as image;
ghost use Rattle.prompt_semantics.specs.Prompt.{prompt_verdict};
ghost use Rattle.affine_driver.specs.declared.command.Command.TheVariants.{Order};
ghost use Rattle.affine_driver.specs.Behaviour.{EndsWithin, Makes};
ghost use Rattle.affine_driver.specs.Command.{IsAllowed};
ghost use Rattle.affine_driver.specs.Outcome.{Answered, Gives};
ghost use Rattle.affine_driver.specs.Output.{IsOrderOutput, order_text, prompted};

use crate::bytes::{put, put_number};
use crate::command::OrderOptions;
use crate::demands::{come_to_end, keep_within, memory_of};
use crate::limits::SOURCE_LIMIT;
use crate::refusal::Refusal;
use affine_ast::{Image, Verified};
use mem_image::print_image;
use order_machine::{Ordered, all_orders_agree, run_order};
use std::alloc::{AllocError, Global};

/// The trace of a run and the number of its steps.
#[tactic(auto, unfolding(crate::specs::Output::order_text))]
fn put_numbers(alloc: Global, out: &mut Vec<u8>, trace: u64, steps: u64) -> Result<(), AllocError>
    ensures { OnOk result (out.new.items ≡ out.old.items ++ order_text trace steps) }
{
    put(out, b"trace ")?;
    put_number(alloc, out, trace)?;
    put(out, b"\nsteps ")?;
    put_number(alloc, out, steps)?;
    put(out, b"\n")
}

/// The printed image of a run, its trace and the number of its steps.
fn output_of(alloc: Global, ordered: &Ordered, verified: &Verified) -> Result<Vec<u8>, AllocError>
    requires { Fits verified.now.inner ordered.now.image }
    ensures { IfOk result (λ output. output.items ≡ image.printed verified.now.inner ordered.now.image ++ order_text ordered.now.trace ordered.now.steps) }
{
    let mut output = print_image(alloc, &ordered.image, verified)?;
    put_numbers(alloc, &mut output, ordered.trace, ordered.steps)?;
    Ok(output)
}

/// What the run by the pick leaves of a memory, or why it leaves nothing.
fn run_from(
    alloc: Global,
    options: OrderOptions,
    verified: &Verified,
    memory: Image,
) -> Result<Vec<u8>, Refusal>
    requires some_engine { 1 ≤ options.run.engines }
    requires fits { Fits verified.now.inner memory }
    ensures { Answered result (λ output. output.items) (EndsWithin verified.now.inner (prompt_verdict (prompted options.run verified.now.inner memory)) (Gives (IsOrderOutput verified.now.inner options memory))) }
{
    keep_within(alloc, verified)?;
    let OrderOptions { run, pick } = options;
    let engines = u32::from(run.engines);
    all_orders_agree(verified, &memory, run.filler, run.capacity, engines);
    let ordered = run_order(
        alloc,
        verified,
        memory,
        run.filler,
        run.capacity,
        engines,
        pick,
    )?;
    come_to_end(ordered.verdict)?;
    let output = output_of(alloc, &ordered, verified)?;
    Ok(output)
}

/// What the run by the pick leaves of a valid module and the initial image that a text spells, or why it leaves nothing.
pub(crate) fn order_output(
    alloc: Global,
    options: OrderOptions,
    verified: &Verified,
    text: &[u8],
) -> Result<Vec<u8>, Refusal>
    requires allowed { IsAllowed (Order options) }
    requires short { length text.now ≤ SOURCE_LIMIT }
    ensures { Answered result (λ output. output.items) (Makes (Order options) verified.now.inner text.now) }
{
    let memory = memory_of(alloc, verified, text)?;
    run_from(alloc, options, verified, memory)
}
