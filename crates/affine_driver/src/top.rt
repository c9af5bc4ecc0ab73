// The top calls.
ghost use Rattle.std.specs.Prelude.{◌≡◌, ◌↔◌, ◌≤◌, true, false, map};
ghost use Rattle.affine_io.specs.Faults.{Rose};
ghost use Rattle.affine_driver.specs.declared.command.Command.{Command};
ghost use Rattle.affine_driver.specs.declared.command.Command.TheVariants.{Stage};
ghost use Rattle.affine_driver.specs.declared.command.StageOptions.{StageOptions};
ghost use Rattle.affine_driver.specs.Command.{AsksFor, runs_threads};
ghost use Rattle.affine_driver.specs.Headline.{AskForNone, AskForNothing, Decides, StagesRightly};
ghost use Rattle.affine_driver.specs.Reading.{ComesBeforeWriting};

use crate::answer::answer_of;
use crate::command::ask_for_threads;
use crate::ending::Ending;
use crate::laws::{endings_are_exact, staged_texts_run};
use crate::limits::SOURCE_LIMIT;
use crate::streams::{begin, finish};
use crate::threads::answer_by_threads;
use affine_io::{Sink, Source};
use dma_engine::Gate;
use stage_reports::plan_is_complete;
use std::alloc::Global;
use std::sync::Wait;
use std::thread::Threads;

/// Reads a source and writes the output of a command that runs no threads to the sink.
///
/// Words are tested before anything is read, and the output is built whole before any of it is written. Want of memory may
/// come anywhere before writing, while words are read too; the source has then lost what it gave.
pub fn stage_main<S: Source, K: Sink>(
    alloc: Global,
    words: &[&str],
    source: &mut S,
    sink: &mut K,
) -> Ending
    ensures words { (result ≡ Ending.Memory → ⊥) → ((result ≡ Ending.Words) ↔ AskForNone false (map (λ word. word.now) words.entry.now)) }
    ensures unasked { AskForNone false (map (λ word. word.now) words.entry.now) → source.new ≡ source.old }

    ensures answers { (command : Command) → AsksFor (map (λ word. word.now) words.entry.now) command → runs_threads command ≡ false → Decides SOURCE_LIMIT command result (S.left source.old) (S.left source.new) (K.contents sink.old) (K.contents sink.new) }
    ensures headline { (options : StageOptions) → AsksFor (map (λ word. word.now) words.entry.now) (Stage options) → result ≡ Ending.Done → StagesRightly options (S.left source.old) (S.left source.new) (K.contents sink.old) (K.contents sink.new) }
    ensures read_fault { result ≡ Ending.ReadFault → Rose (S.faults source.old) (S.faults source.new) }
    ensures later { S.faults source.old ≤ S.faults source.new }

    ensures unwritten { ComesBeforeWriting result → sink.new ≡ sink.old }
    ensures write_fault { result ≡ Ending.WriteFault → Rose (K.faults sink.old) (K.faults sink.new) }
{
    endings_are_exact();
    staged_texts_run();
    plan_is_complete();
    let begun = match begin(alloc, words, false, source) {
        Ok(begun) => begun,
        Err(ending) => return ending,
    };
    let (command, text) = begun;
    finish(sink, answer_of(alloc, command, text.as_slice()))
}

/// Reads a source and writes the output of a command that runs threads, `run` or `both`, to the sink.
///
/// The gate is called round the steps of the engines and of the compute thread. The call may wait; if it returns, all is as
/// with `stage_main`.
pub fn run_main<R: Threads + Wait + Sync, S: Source, K: Sink, G: Gate + Sync>(
    rt: &R,
    alloc: Global,
    words: &[&str],
    source: &mut S,
    sink: &mut K,
    gate: &G,
) -> Ending
    ensures words { (result ≡ Ending.Memory → ⊥) → ((result ≡ Ending.Words) ↔ AskForNone true (map (λ word. word.now) words.entry.now)) }
    ensures unasked { AskForNone true (map (λ word. word.now) words.entry.now) → source.new ≡ source.old }

    ensures answers { (command : Command) → AsksFor (map (λ word. word.now) words.entry.now) command → runs_threads command ≡ true → Decides SOURCE_LIMIT command result (S.left source.old) (S.left source.new) (K.contents sink.old) (K.contents sink.new) }
    ensures read_fault { result ≡ Ending.ReadFault → Rose (S.faults source.old) (S.faults source.new) }
    ensures later { S.faults source.old ≤ S.faults source.new }

    ensures unwritten { ComesBeforeWriting result → sink.new ≡ sink.old }
    ensures write_fault { result ≡ Ending.WriteFault → Rose (K.faults sink.old) (K.faults sink.new) }
{
    endings_are_exact();
    let begun = match begin(alloc, words, true, source) {
        Ok(begun) => begun,
        Err(ending) => return ending,
    };
    let (command, text) = begun;
    finish(
        sink,
        answer_by_threads(alloc, rt, gate, command, text.as_slice()),
    )
}

/// Reads a source and writes the command's output to the sink: `run_main` for a command that runs threads, `stage_main` for every
/// other.
pub fn affine_main<R: Threads + Wait + Sync, S: Source, K: Sink, G: Gate + Sync>(
    rt: &R,
    alloc: Global,
    words: &[&str],
    source: &mut S,
    sink: &mut K,
    gate: &G,
) -> Ending
    ensures words { (result ≡ Ending.Memory → ⊥) → ((result ≡ Ending.Words) ↔ AskForNothing (map (λ word. word.now) words.entry.now)) }
    ensures unasked { AskForNothing (map (λ word. word.now) words.entry.now) → source.new ≡ source.old }

    ensures answers { (command : Command) → AsksFor (map (λ word. word.now) words.entry.now) command → Decides SOURCE_LIMIT command result (S.left source.old) (S.left source.new) (K.contents sink.old) (K.contents sink.new) }
    ensures headline { (options : StageOptions) → AsksFor (map (λ word. word.now) words.entry.now) (Stage options) → result ≡ Ending.Done → StagesRightly options (S.left source.old) (S.left source.new) (K.contents sink.old) (K.contents sink.new) }
    ensures read_fault { result ≡ Ending.ReadFault → Rose (S.faults source.old) (S.faults source.new) }
    ensures later { S.faults source.old ≤ S.faults source.new }

    ensures unwritten { ComesBeforeWriting result → sink.new ≡ sink.old }
    ensures write_fault { result ≡ Ending.WriteFault → Rose (K.faults sink.old) (K.faults sink.new) }
{
    if ask_for_threads(words) {
        run_main(rt, alloc, words, source, sink, gate)
    } else {
        stage_main(alloc, words, source, sink)
    }
}
