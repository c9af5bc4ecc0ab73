//! One token, at the front of some bytes.

ghost use Rattle.std.specs.Prelude.{◌≡◌, ◌≢◌, ◌<◌, ◌≤◌, ◌+◌, ◌^◌, length, slice_index, true};
ghost use Rattle.affine_lex.specs.Classes as classes;
ghost use Rattle.affine_lex.specs.Scan as spec;
ghost use Rattle.affine_lex.specs.declared.token.Kind.TheVariants.{Value, Alias, Symbol};

use crate::class::{Class, is_in, is_sign};
use crate::token::Kind;

/// The byte at a place, and 0, which is in no form of a token, behind the last one.
pub(crate) fn byte_at(bytes: &[u8], at: usize) -> u8
    ensures value { result ≡ slice_index bytes.now at }
    ensures within { result ≢ 0 → at < length bytes.now }
{
    if at < bytes.len() { bytes[at] } else { 0 }
}

/// How many bytes of the class come first.
fn run(class: Class, bytes: &[u8]) -> usize
    ensures value { result ≡ spec.run class bytes.now }
    ensures within { result ≤ length bytes.now }
    ensures some { 0 < length bytes.now → classes.is_in class (slice_index bytes.now 0) ≡ true → 0 < result }
{
    let mut end = 0;
    while end < bytes.len() && is_in(class, bytes[end]) {
        end += 1;
    }
    end
}

/// The value of decimal digits, and 2^63 + 1 for each value above 2^63.
#[tactic(auto, unfolding(crate::specs::Scan::capped_value))]
fn capped_value(digits: &[u8]) -> u64
    ensures value { result ≡ spec.capped_value digits.now }
    ensures within { result ≤ 2 ^ 63 + 1 }
{
    let mut value: u64 = 0;
    for digit in digits {
        let more = 10 * (value as u128) + (digit.saturating_sub(b'0') as u128);
        value = more.min((1 << 63) + 1) as u64;
    }
    value
}

/// The token that begins with a digit.
#[tactic(auto, unfolding(crate::specs::Scan::number))]
fn number(sizes: bool, bytes: &[u8]) -> (Kind, usize)
    requires { classes.is_in Class.Digit (slice_index bytes.now 0) ≡ true }
    ensures value { result ≡ spec.number sizes bytes.now }
    ensures within { (0 < result.1) × (result.1 ≤ length bytes.now) }
{
    let count = run(Class::Digit, bytes);
    if sizes && byte_at(bytes, count) == b'x' {
        return (Kind::Sizes, count + 1);
    }
    let value = capped_value(&bytes[..count]);
    if value <= 1 << 63 {
        (Kind::Int(value), count)
    } else {
        (Kind::Bad, count)
    }
}

/// The token that begins with the sign of a name of this kind; `digits` tells whether digits alone
/// are such a name.
#[tactic(auto, unfolding(crate::specs::Scan::name))]
fn name(kind: Kind, digits: bool, bytes: &[u8]) -> (Kind, usize)
    requires { 0 < length bytes.now }
    ensures value { result ≡ spec.name kind digits bytes.now }
    ensures within { (0 < result.1) × (result.1 ≤ length bytes.now) }
{
    let next = byte_at(bytes, 1);
    if is_in(Class::IdFirst, next) {
        (kind, 1 + run(Class::Id, &bytes[1..]))
    } else if digits && is_in(Class::Digit, next) {
        (kind, 1 + run(Class::Digit, &bytes[1..]))
    } else {
        (Kind::Bad, 1)
    }
}

/// The token that begins with none of a letter, a digit and a name's sign.
#[tactic(auto, unfolding(crate::specs::Scan::mark))]
fn mark(bytes: &[u8]) -> (Kind, usize)
    requires { 0 < length bytes.now }
    ensures value { result ≡ spec.mark (slice_index bytes.now 0) (slice_index bytes.now 1) }
    ensures within { (0 < result.1) × (result.1 ≤ length bytes.now) }
{
    let byte = byte_at(bytes, 0);
    let next = byte_at(bytes, 1);
    if byte == b'-' && next == b'>' {
        (Kind::Arrow, 2)
    } else if byte == b'>' && next == b'=' {
        (Kind::GreaterEqual, 2)
    } else if byte == b'<' && next == b'=' {
        (Kind::LessEqual, 2)
    } else if byte == b'=' && next == b'=' {
        (Kind::Equal, 2)
    } else if is_sign(byte) {
        (Kind::Punct(byte), 1)
    } else {
        (Kind::Bad, 1)
    }
}

/// The token at the front of the bytes, with its length; `sizes` tells whether digits with an `x`
/// right behind them are one token here.
#[tactic(auto, unfolding(crate::specs::Scan::token))]
pub(crate) fn token(sizes: bool, bytes: &[u8]) -> (Kind, usize)
    requires { 0 < length bytes.now }
    ensures value { result ≡ spec.token sizes bytes.now }
    ensures within { (0 < result.1) × (result.1 ≤ length bytes.now) }
{
    let first = byte_at(bytes, 0);
    if is_in(Class::WordFirst, first) {
        (Kind::Word, run(Class::Word, bytes))
    } else if is_in(Class::Digit, first) {
        number(sizes, bytes)
    } else if first == b'%' {
        name(Kind::Value, true, bytes)
    } else if first == b'#' {
        name(Kind::Alias, false, bytes)
    } else if first == b'@' {
        name(Kind::Symbol, false, bytes)
    } else {
        mark(bytes)
    }
}
