// What a command that runs no threads writes of a source, or the refusal that it comes to.
ghost use Rattle.std.specs.Prelude.{◌≡◌, ◌≤◌, false, length, MatchResult};
ghost use Rattle.affine_ast.specs.Spelling.{spelling};
ghost use Rattle.affine_ast.specs.Validity.{IsValid};
ghost use Rattle.affine_grammar.specs.Spelling.{Spells};
ghost use Rattle.affine_driver.specs.Behaviour.{ComesTo};
ghost use Rattle.affine_driver.specs.Command.{IsAllowed, runs_threads};
ghost use Rattle.affine_driver.specs.Outcome.{Answered, Gives};
ghost use Rattle.affine_driver.specs.Refusals.{IsNotRead, OrMemory};

use crate::command::Command;
use crate::limits::SOURCE_LIMIT;
use crate::order::order_output;
use crate::plain::plain_output;
use crate::refusal::Refusal;
use crate::regions::regions_output;
use crate::stage::stage_output;
use affine_ast::Verified;
use affine_print::print;
use affine_text::parse;
use affine_verify::verify;
use source_parts::split;
use std::alloc::Global;

/// The valid module that a text spells.
#[tactic(auto, using(crate::proofs::Refusals::no_text, crate::proofs::Refusals::rule_broken))]
pub(crate) fn read(alloc: Global, text: &[u8]) -> Result<Verified, Refusal>
    requires { length text.now ≤ SOURCE_LIMIT }
    ensures { MatchResult result (λ verified. Spells text.now verified.inner × IsValid verified.inner) (λ refusal. OrMemory (IsNotRead text.now) refusal) }
{
    let module = parse(alloc, text)?;
    let verified = verify(alloc, module)?;
    Ok(verified)
}

/// The module's printed spelling.
fn checked(alloc: Global, verified: &Verified) -> Result<Vec<u8>, Refusal>
    ensures { Answered result (λ output. output.items) (Gives (λ output. output ≡ spelling verified.now.inner)) }
{
    let output = print(alloc, verified.module())?;
    Ok(output)
}

/// What a command that runs no threads writes of a source, or the refusal that it comes to.
#[tactic(auto, using(crate::proofs::Originals::is_read, crate::proofs::Refusals::unread))]
pub(crate) fn answer_of(alloc: Global, command: Command, source: &[u8]) -> Result<Vec<u8>, Refusal>
    requires allowed { IsAllowed command }
    requires own { runs_threads command ≡ false }
    requires short { length source.now ≤ SOURCE_LIMIT }
    ensures { Answered result (λ output. output.items) (ComesTo command source.now) }
{
    let parts = split(source);
    let verified = read(alloc, parts.text)?;
    match command {
        Command::Check => checked(alloc, &verified),
        Command::Stage(options) => stage_output(alloc, options, &verified),
        Command::Plain => plain_output(alloc, &verified, parts.image),
        Command::Regions(options) => regions_output(alloc, options, &verified),
        Command::Run(_) => unreachable!(),
        Command::Order(options) => order_output(alloc, options, &verified, parts.image),
        Command::Both(_) => unreachable!(),
        Command::Sample(_) => unreachable!(),
    }
}
