// What a command that runs threads writes of a source, or the refusal that it comes to.
ghost use Rattle.std.specs.Prelude.{◌≡◌, ◌≤◌, true, length};
ghost use Rattle.affine_driver.specs.Behaviour.{ComesTo};
ghost use Rattle.affine_driver.specs.Command.{IsAllowed, runs_threads};
ghost use Rattle.affine_driver.specs.Outcome.{Answered};

use crate::answer::read;
use crate::both::both_output;
use crate::command::Command;
use crate::limits::SOURCE_LIMIT;
use crate::refusal::Refusal;
use crate::run::run_output;
use dma_engine::Gate;
use source_parts::split;
use std::alloc::Global;
use std::sync::Wait;
use std::thread::Threads;

/// What a command that runs threads writes of a source, or the refusal that it comes to.
#[tactic(auto, using(crate::proofs::Originals::is_read, crate::proofs::Refusals::unread))]
pub(crate) fn answer_by_threads<R: Threads + Wait + Sync, G: Gate + Sync>(
    alloc: Global,
    rt: &R,
    gate: &G,
    command: Command,
    source: &[u8],
) -> Result<Vec<u8>, Refusal>
    requires allowed { IsAllowed command }
    requires own { runs_threads command ≡ true }
    requires short { length source.now ≤ SOURCE_LIMIT }
    ensures { Answered result (λ output. output.items) (ComesTo command source.now) }
{
    let parts = split(source);
    let verified = read(alloc, parts.text)?;
    match command {
        Command::Run(options) => run_output(alloc, rt, gate, options, &verified, parts.image),
        Command::Both(options) => both_output(alloc, rt, gate, options, &verified, parts.image),
        Command::Check => unreachable!(),
        Command::Regions(_) => unreachable!(),
        Command::Stage(_) => unreachable!(),
        Command::Plain => unreachable!(),
        Command::Order(_) => unreachable!(),
        Command::Sample(_) => unreachable!(),
    }
}
