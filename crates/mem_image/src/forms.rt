// The rules I1 to I4, asked of one line.
ghost use Rattle.std.specs.Prelude.{◌≡◌, ◌<◌, ◌≤◌, ◌-◌, ◌^◌, true, false, Some, None, min, map, length, drop, IfOk, MatchOption};
ghost use Rattle.std.specs.List.{list_all};
ghost use Rattle.std.specs.Char.{is_ascii_digit};
ghost use Rattle.std.specs.Str.{bytes_eq};
ghost use Rattle.num_row.specs.Decimals as decimals;
ghost use Rattle.num_row.specs.Ints.{fits_i128};
ghost use Rattle.affine_ast.specs.Sizes.{element_bits};
ghost use Rattle.affine_ast.specs.Sizes as shapes;
ghost use Rattle.mem_image.specs.Lines.{words};
ghost use Rattle.mem_image.specs.Forms as spec;

use crate::lines::next_word;
use affine_ast::{Arg, ArgKind, Element};
use affine_expr::Interval;
use num_row::read_decimal;
use sqlite_items::Items;
use std::alloc::{AllocError, Global};

/// Whether an id may begin with a byte.
fn begins_id(byte: u8) -> bool
    ensures { result ≡ spec.begins_id byte }
{
    byte.is_ascii_alphabetic() || byte == b'_' || byte == b'$' || byte == b'.'
}

/// Whether an id may go on with a byte.
fn goes_on_id(byte: u8) -> bool
    ensures { result ≡ spec.goes_on_id byte }
{
    byte.is_ascii_alphanumeric() || byte == b'_' || byte == b'$' || byte == b'.' || byte == b'-'
}

fn all_digits(text: &[u8]) -> bool
    ensures { result ≡ list_all is_ascii_digit text.now }
{
    text.iter().all(|byte| byte.is_ascii_digit())
}

fn all_go_on(text: &[u8]) -> bool
    ensures { result ≡ list_all spec.goes_on_id text.now }
{
    text.iter().all(|&byte| goes_on_id(byte))
}

/// Whether a word is an id.
fn is_id(text: &[u8]) -> bool
    ensures { result ≡ spec.is_id text.now }
{
    match text {
        [] => false,
        [first, more @ ..] => begins_id(*first) && all_go_on(more),
    }
}

/// Whether a word is one digit or more.
fn is_digits(text: &[u8]) -> bool
    ensures { result ≡ spec.is_digits text.now }
{
    !text.is_empty() && all_digits(text)
}

/// Whether a word is a name without its `%`.
#[tactic(auto, unfolding(crate::specs::Forms::is_name))]
fn is_name(text: &[u8]) -> bool
    ensures { result ≡ spec.is_name text.now }
{
    is_digits(text) || is_id(text)
}

/// The text behind its `-`, if it begins with one.
fn without_minus(text: &[u8]) -> &[u8]
    ensures { result.now ≡ decimals.without_minus text.now }
{
    match text {
        [b'-', digits @ ..] => digits,
        _ => text,
    }
}

/// Whether a word is an optional `-` and digits.
#[tactic(auto, using(crate::proofs::Numbers::decimal_digits))]
fn is_decimal(text: &[u8]) -> bool
    ensures { result ≡ decimals.is_decimal text.now }
{
    is_digits(without_minus(text))
}

/// Whether all words of a line are numbers.
fn are_decimal(line: &[u8]) -> bool
    ensures { result ≡ list_all decimals.is_decimal (words line.now) }
{
    let mut rest = line;
    while let Some((word, more)) = next_word(rest) {
        if !is_decimal(word) {
            return false;
        }
        rest = more;
    }
    true
}

/// How many words a line has.
fn count_words(line: &[u8]) -> usize
    ensures value { result ≡ length (words line.now) }
    ensures within { result ≤ length line.now }
{
    let mut count = 0;
    let mut rest = line;
    while let Some((_, more)) = next_word(rest) {
        count += 1;
        rest = more;
    }
    count
}

/// The integer that a number writes, where it fits.
fn number(text: &[u8]) -> Option<i128>
    requires { decimals.is_decimal text.now ≡ true }
    ensures { MatchOption result (fits_i128 (decimals.decimal_value text.now) ≡ false) (λ v. v ≡ decimals.decimal_value text.now) }
{
    read_decimal(text)
}

/// The integer that a number writes, where it lies in a range.
#[tactic(auto, using(crate::proofs::Numbers::wide_outside))]
fn read_value(range: Interval, text: &[u8]) -> Option<i64>
    requires { decimals.is_decimal text.now ≡ true }
    ensures { let value = decimals.decimal_value text.now in MatchOption result (spec.is_between range value ≡ false) (λ v. (spec.is_between range value ≡ true) × (v ≡ value)) }
{
    match number(text) {
        Some(value) => {
            if (range.least as i128) <= value && value <= (range.greatest as i128) {
                Some(value as i64)
            } else {
                None
            }
        }
        None => None,
    }
}

/// Whether all numbers of a line lie in a range.
fn are_between(range: Interval, line: &[u8]) -> bool
    requires { list_all decimals.is_decimal (words line.now) ≡ true }
    ensures { result ≡ spec.are_between range (words line.now) }
{
    let mut rest = line;
    while let Some((word, more)) = next_word(rest) {
        match read_value(range, word) {
            Some(_) => rest = more,
            None => return false,
        }
    }
    true
}

/// The integers that the numbers of a line write.
pub(crate) fn read_values(
    alloc: Global,
    range: Interval,
    line: &[u8],
) -> Result<Items<i64>, AllocError>
    requires decimal { list_all decimals.is_decimal (words line.now) ≡ true }
    requires between { spec.are_between range (words line.now) ≡ true }
    ensures { IfOk result (λ values. values ≡ map decimals.decimal_value (words line.now)) }
{
    let mut values = Items::new(alloc);
    let mut rest = line;
    while let Some((word, more)) = next_word(rest) {
        if let Some(value) = read_value(range, word) {
            values.push(value)?;
        }
        rest = more;
    }
    Ok(values)
}

/// The signed range of an element type.
fn signed_range(element: Element) -> Interval
    ensures { result ≡ spec.signed_range (element_bits element) }
{
    let (least, greatest) = match element {
        Element::I8 => (i8::MIN as i64, i8::MAX as i64),
        Element::I16 => (i16::MIN as i64, i16::MAX as i64),
        Element::I32 => (i32::MIN as i64, i32::MAX as i64),
        Element::I64 => (i64::MIN, i64::MAX),
    };
    Interval { least, greatest }
}

/// The least and the greatest number that an argument takes.
pub(crate) fn range_of(kind: &ArgKind) -> Interval
    ensures { result ≡ spec.range_of_kind kind.now }
{
    match kind {
        ArgKind::Memref(ty) => signed_range(ty.element),
        ArgKind::Index(Some(range)) => *range,
        ArgKind::Index(None) => Interval {
            least: 0,
            greatest: 1 << 20,
        },
    }
}

/// The elements of a memref of these sizes, and the greatest number where they are more.
fn product(sizes: &[u32]) -> usize
    ensures { result ≡ min (shapes.product sizes.now) (2 ^ 64 - 1) }
{
    let mut count: usize = 1;
    for size in sizes {
        count = count.saturating_mul(*size as usize);
    }
    count
}

/// How many numbers an argument has, and the greatest number where they are more.
fn count_of(kind: &ArgKind) -> usize
    ensures { result ≡ min (spec.count_of kind.now) (2 ^ 64 - 1) }
{
    match kind {
        ArgKind::Memref(ty) => product(ty.sizes.as_slice()),
        ArgKind::Index(_) => 1,
    }
}

/// The first word of a line, empty where there is none.
fn name_in(line: &[u8]) -> &[u8]
    ensures { result.now ≡ spec.name_in (words line.now) }
{
    match next_word(line) {
        Some((name, _)) => name,
        None => &[],
    }
}

/// The part of a line behind its first word.
fn behind_word(line: &[u8]) -> &[u8]
    ensures value { words result.now ≡ drop 1 (words line.now) }
    ensures within { length result.now ≤ length line.now }
{
    match next_word(line) {
        Some((_, rest)) => rest,
        None => line,
    }
}

/// The part of a line behind its name and `=`.
pub(crate) fn numbers_in(line: &[u8]) -> &[u8]
    ensures value { words result.now ≡ spec.numbers_in (words line.now) }
    ensures within { length result.now ≤ length line.now }
{
    behind_word(behind_word(line))
}

/// Whether all words of a line are numbers, and there is one.
#[tactic(auto, unfolding(crate::specs::Forms::are_numbers))]
fn are_numbers(line: &[u8]) -> bool
    ensures { result ≡ spec.are_numbers (words line.now) }
{
    count_words(line) > 0 && are_decimal(line)
}

/// Whether a line is a name, `=` and one number or more.
pub(crate) fn has_form(line: &[u8]) -> bool
    ensures { result ≡ spec.has_form (words line.now) }
{
    let Some((name, rest)) = next_word(line) else {
        return false;
    };
    let Some((sign, numbers)) = next_word(rest) else {
        return false;
    };
    if !is_name(name) {
        return false;
    }
    if sign != b"=".as_slice() {
        return false;
    }
    are_numbers(numbers)
}

/// Whether a line begins with the name of an argument.
fn is_named(arg: &Arg, line: &[u8]) -> bool
    ensures { result ≡ bytes_eq (spec.name_in (words line.now)) arg.now.name.text }
{
    name_in(line) == arg.name.text.as_str().as_bytes()
}

/// The lowest rule that the line of an argument breaks.
pub(crate) fn broken_rule(arg: &Arg, line: &[u8]) -> Option<u8>
    requires { length line.now < 4294967295 }
    ensures { result ≡ spec.rule_of_line (Some arg.now) (words line.now) }
{
    if !has_form(line) {
        return Some(1);
    }
    if !is_named(arg, line) {
        return Some(2);
    }
    let numbers = numbers_in(line);
    if count_words(numbers) != count_of(&arg.kind) {
        return Some(3);
    }
    if !are_between(range_of(&arg.kind), numbers) {
        return Some(4);
    }
    None
}

/// The lowest rule that a line breaks for which no argument is left.
#[tactic(auto, unfolding(crate::specs::Forms::rule_of_line))]
pub(crate) fn left_over_rule(line: &[u8]) -> u8
    ensures { spec.rule_of_line None (words line.now) ≡ Some result }
{
    if has_form(line) { 2 } else { 1 }
}
