// The values of options, by clap's matches.
ghost use Rattle.std.specs.Prelude.{◌≡◌, true, false, option_map, List, IfOk, MatchOption};
ghost use Rattle.std.specs.Char.{is_ascii_digit};
ghost use Rattle.std.specs.List.{list_all};
ghost use Rattle.num_row.specs.Decimals as decimals;
ghost use Rattle.num_row.specs.Ints.{fits_i128};
ghost use Rattle.command_words.specs.Words.{Item};
ghost use Rattle.command_words.specs.Options as spec;
ghost use Rattle.command_words.specs.Reader.{Agrees, AgreesBy, AgreesOn, AllAgree};

use crate::options::{CommandOption, Takes, Value};
use clap::ArgMatches;
use num_row::read_decimal;
use std::alloc::{AllocError, Global};

/// The most digits of a number.
const MOST_DIGITS: usize = 20;

/// The text behind its `-`, if it begins with one.
fn without_minus(text: &[u8]) -> &[u8]
    ensures { result.now ≡ decimals.without_minus text.now }
{
    match text {
        [b'-', digits @ ..] => digits,
        _ => text,
    }
}

/// Whether all bytes are digits.
fn are_digits(text: &[u8]) -> bool
    ensures { result ≡ list_all is_ascii_digit text.now }
{
    text.iter().all(|byte| byte.is_ascii_digit())
}

/// Whether a text is an optional `-` and digits.
#[tactic(auto, using(crate::proofs::Numbers::decimal_digits))]
fn is_decimal(text: &[u8]) -> bool
    ensures { result ≡ decimals.is_decimal text.now }
{
    let digits = without_minus(text);
    !digits.is_empty() && are_digits(digits)
}

/// Whether a text is a number: of not more digits than a number may have.
fn is_number(text: &[u8]) -> bool
    ensures { result ≡ spec.is_number text.now }
{
    is_decimal(text) && without_minus(text).len() <= MOST_DIGITS
}

/// The integer that a number writes.
fn integer(text: &[u8]) -> Option<i128>
    requires { spec.is_number text.now ≡ true }
    ensures { MatchOption result (fits_i128 (decimals.decimal_value text.now) ≡ false) (λ v. v ≡ decimals.decimal_value text.now) }
{
    read_decimal(text)
}

/// The number that a text writes, where it lies in the range.
#[tactic(auto, using(crate::proofs::Numbers::wide_none, crate::proofs::Numbers::range_none, crate::proofs::Numbers::range_some, crate::proofs::Numbers::form_none))]
fn number_between(least: i64, most: i64, text: &[u8]) -> Option<i64>
    ensures { result ≡ spec.number_in least most text.now }
{
    if !is_number(text) {
        return None;
    }
    match integer(text) {
        Some(number) => {
            if (least as i128) <= number && number <= (most as i128) {
                Some(number as i64)
            } else {
                None
            }
        }
        None => None,
    }
}

/// The value of an option, where its text is a number in its range.
fn value_of(matches: &ArgMatches<'_>, option: &CommandOption<'_>) -> Option<Value>
    ensures { (items : List Item) → Agrees matches.now items (spec.as_rule option.now) → result ≡ spec.value_in items (spec.as_rule option.now) }
{
    if !option.is_built() {
        return Some(option.takes.default());
    }
    match option.takes {
        Takes::Flag => Some(Value::Flag(matches.get_flag(option.name))),
        Takes::Number {
            least,
            most,
            default,
        } => match matches.get_str(option.name) {
            Some(text) => number_between(least, most, text.as_bytes()).map(Value::Number),
            None => Some(Value::Number(default)),
        },
    }
}

/// The values of options in their order, where each text is a number in its option's range.
pub(crate) fn values_of(
    alloc: Global,
    matches: &ArgMatches<'_>,
    options: &[CommandOption<'_>],
) -> Result<Option<Vec<Value>>, AllocError>
    ensures { IfOk result (λ found. (items : List Item) → AllAgree matches.now items (spec.rules_of options.now) → option_map (λ values. values.items) found ≡ spec.values_in items (spec.rules_of options.now)) }
{
    let mut values = Vec::new(alloc);
    for option in options {
        let Some(value) = value_of(matches, option) else {
            return Ok(None);
        };
        values.push(value)?;
    }
    Ok(Some(values))
}

/// Whether an option is given.
fn is_given(matches: &ArgMatches<'_>, option: &CommandOption<'_>) -> bool
    ensures { (items : List Item) → AgreesBy option.now.takes option.now.name.now matches.now items → result ≡ spec.is_given items option.now.takes option.now.name.now }
{
    match option.takes {
        Takes::Flag => matches.get_flag(option.name),
        Takes::Number { .. } => matches.get_str(option.name).is_some(),
    }
}

/// Whether the flag that an option needs is given.
fn has_need(matches: &ArgMatches<'_>, needs: Option<&str>) -> bool
    ensures { (items : List Item) → let needed = option_map (λ name. name.now) needs.entry in AgreesOn needed matches.now items → result ≡ spec.has_need items needed }
{
    match needs {
        Some(name) => matches.get_flag(name),
        None => true,
    }
}

fn meets_need(matches: &ArgMatches<'_>, option: &CommandOption<'_>) -> bool
    ensures { (items : List Item) → Agrees matches.now items (spec.as_rule option.now) → result ≡ spec.meets_need items (spec.as_rule option.now) }
{
    if option.is_built() && is_given(matches, option) {
        has_need(matches, option.needs)
    } else {
        true
    }
}

/// Whether each option that is given has the flag that it needs.
pub(crate) fn all_meet_needs(matches: &ArgMatches<'_>, options: &[CommandOption<'_>]) -> bool
    ensures { (items : List Item) → AllAgree matches.now items (spec.rules_of options.now) → result ≡ list_all (spec.meets_need items) (spec.rules_of options.now) }
{
    for option in options {
        if !meets_need(matches, option) {
            return false;
        }
    }
    true
}
