// Reading the words behind a command's name.
ghost use Rattle.std.specs.Prelude.{◌≡◌, ◌↔◌, Some, IfOk, map, option_map, List, true, false};
ghost use Rattle.std.specs.List.{list_any};
ghost use Rattle.clap.specs.Words.{app_of, rule_of};
ghost use Rattle.command_words.specs.declared.options.Value.{Value};
ghost use Rattle.command_words.specs.Options.{as_rule, rules_of, is_table, Gives};
ghost use Rattle.command_words.specs.Reader as spec;

use crate::matches::{all_meet_needs, values_of};
use crate::options::{CommandOption, Takes, Value};
use clap::error::ErrorKind;
use clap::{Arg, ArgAction, Command};
use std::alloc::{AllocError, Global};

/// Whether a word begins with a hyphen, and isn't `--` with something behind it.
fn is_stray(word: &str) -> bool
    ensures { result ≡ spec.is_stray word.now }
{
    let bytes = word.as_bytes();
    match bytes {
        [b'-', b'-', _, ..] => false,
        [b'-', ..] => true,
        _ => false,
    }
}

fn has_stray(words: &[&str]) -> bool
    ensures { result ≡ list_any (λ word. spec.is_stray word.now) words.now }
{
    words.iter().any(|word| is_stray(word))
}

/// What clap is told of an option.
fn argument<'a>(alloc: Global, option: &CommandOption<'a>) -> Arg<'a>
    ensures rule { rule_of result ≡ spec.rule_of_choice (spec.choice_for (as_rule option.now)) }
    ensures own { result.global ≡ false }
{
    let named = Arg::new(alloc, option.name).long(option.name);
    match option.takes {
        Takes::Flag => named.action(ArgAction::SetTrue),
        Takes::Number { .. } => named.action(ArgAction::Set),
    }
}

/// What clap is told of a command.
fn command<'a>(
    alloc: Global,
    name: &'a str,
    options: &[CommandOption<'a>],
) -> Result<Command<'a>, AllocError>
    ensures { IfOk result (λ command. app_of command ≡ spec.app_with name.entry.now (spec.choices_of (rules_of options.now))) }
{
    let mut command = Command::new(alloc, name)
        .no_binary_name(true)
        .disable_help_flag(true)
        .disable_version_flag(true);
    for option in options {
        if option.is_built() {
            command = command.arg(argument(alloc, option))?;
        }
    }
    Ok(command)
}

/// The values that the words behind a command's name give its options, in order of these; none where the words don't keep the
/// rules of writing, a number isn't in its option's range, or an option is given without the flag that it needs.
pub fn read_words<'a>(
    alloc: Global,
    name: &'a str,
    options: &'a [CommandOption<'a>],
    words: &'a [&'a str],
) -> Result<Option<Vec<Value>>, AllocError>
    requires { is_table (rules_of options.now) ≡ true }
    ensures { IfOk result (λ found. (values : List Value) → (option_map (λ given. given.items) found ≡ Some values) ↔ Gives (rules_of options.entry.now) (map (λ word. word.now) words.entry.now) values) }
{
    if has_stray(words) {
        return Ok(None);
    }
    let command = command(alloc, name, options)?;
    match command.try_get_matches_from(words) {
        Ok(matches) => {
            if !all_meet_needs(&matches, options) {
                return Ok(None);
            }
            values_of(alloc, &matches, options)
        }
        Err(error) => match error.kind() {
            ErrorKind::OutOfMemory => Err(AllocError),
            _ => Ok(None),
        },
    }
}
