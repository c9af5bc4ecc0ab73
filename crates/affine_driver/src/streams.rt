// What a call reads before it answers a command, and what it writes then.
ghost use Rattle.std.specs.Prelude.{◌≡◌, ◌↔◌, ◌≤◌, ◌⊎◌, List, ℕ, Option, map, length, IfOk, IfErr, IsErrOf};
ghost use Rattle.affine_io.specs.Faults.{Rose};
ghost use Rattle.affine_driver.specs.declared.command.Command.{Command};
ghost use Rattle.affine_driver.specs.Behaviour.{ComesTo};
ghost use Rattle.affine_driver.specs.Command.{AsksFor, runs_threads};
ghost use Rattle.affine_driver.specs.Headline.{AskForNone};
ghost use Rattle.affine_driver.specs.Outcome.{Answered};
ghost use Rattle.affine_driver.specs.Reading.{Answers, Because, ComesAfterReading, ComesBeforeWriting, Reads};

use crate::command::{Command, command_among};
use crate::ending::Ending;
use crate::limits::SOURCE_LIMIT;
use crate::refusal::Refusal;
use affine_io::{ReadStop, Sink, Source, read_all, write_all};
use std::alloc::{AllocError, Global};

/// Reads a source to its end.
fn read_text<S: Source>(alloc: Global, source: &mut S) -> Result<Vec<u8>, Ending>
    ensures read { IfOk result (λ text. Reads SOURCE_LIMIT (S.left source.old) (S.left source.new) text.items) }
    ensures answers { IfErr result (λ ending. (command : Command) (before : Option (List ℕ)) → Answers SOURCE_LIMIT command ending (S.left source.old) (S.left source.new) before before) }
    ensures asked { IsErrOf result Ending.Words → ⊥ }
    ensures unwritten { IfErr result ComesBeforeWriting }
    ensures read_fault { IsErrOf result Ending.ReadFault → Rose (S.faults source.old) (S.faults source.new) }
    ensures later { S.faults source.old ≤ S.faults source.new }
{
    match read_all(alloc, source, SOURCE_LIMIT) {
        Ok(text) => Ok(text),
        Err(ReadStop::Fault) => Err(Ending::ReadFault),
        Err(ReadStop::TooLong) => Err(Ending::TooLong),
        Err(ReadStop::Memory) => Err(Ending::Memory),
    }
}

/// The command that the words ask for, where it is one that runs threads, or one that doesn't, and the whole text of the source.
pub(crate) fn begin<S: Source>(
    alloc: Global,
    words: &[&str],
    threads: bool,
    source: &mut S,
) -> Result<(Command, Vec<u8>), Ending>
    ensures asked { IfOk result (λ begun. (command : Command) → (AsksFor (map (λ word. word.now) words.entry.now) command × (runs_threads command ≡ threads)) ↔ (begun.0 ≡ command)) }
    ensures read { IfOk result (λ begun. Reads SOURCE_LIMIT (S.left source.old) (S.left source.new) begun.1.items) }
    ensures words { IfErr result (λ ending. (ending ≡ Ending.Memory → ⊥) → ((ending ≡ Ending.Words) ↔ AskForNone threads (map (λ word. word.now) words.entry.now))) }
    ensures unasked { AskForNone threads (map (λ word. word.now) words.entry.now) → source.new ≡ source.old }
    ensures answers { IfErr result (λ ending. (command : Command) (before : Option (List ℕ)) → AsksFor (map (λ word. word.now) words.entry.now) command → runs_threads command ≡ threads → Answers SOURCE_LIMIT command ending (S.left source.old) (S.left source.new) before before) }
    ensures unwritten { IfErr result ComesBeforeWriting }
    ensures read_fault { IsErrOf result Ending.ReadFault → Rose (S.faults source.old) (S.faults source.new) }
    ensures later { S.faults source.old ≤ S.faults source.new }
{
    let command = match command_among(alloc, words, threads) {
        Ok(Some(command)) => command,
        Ok(None) => return Err(Ending::Words),
        Err(AllocError) => return Err(Ending::Memory),
    };
    match read_text(alloc, source) {
        Ok(text) => Ok((command, text)),
        Err(ending) => Err(ending),
    }
}

/// Writes what a command makes of a source to the sink, or says why it makes nothing.
pub(crate) fn finish<K: Sink>(sink: &mut K, answer: Result<Vec<u8>, Refusal>) -> Ending
    ensures read { ComesAfterReading result ⊎ (result ≡ Ending.Memory) }
    ensures because { (command : Command) (source : List ℕ) → Answered answer (λ output. output.items) (ComesTo command source) → Because command source result (K.contents sink.old) (K.contents sink.new) }
    ensures unwritten { ComesBeforeWriting result → sink.new ≡ sink.old }
    ensures write_fault { result ≡ Ending.WriteFault → Rose (K.faults sink.old) (K.faults sink.new) }
{
    let output = match answer {
        Ok(output) => output,
        Err(refusal) => return Ending::from(refusal),
    };
    match write_all(sink, output.as_slice()) {
        Ok(()) => Ending::Done,
        Err(_) => Ending::WriteFault,
    }
}
