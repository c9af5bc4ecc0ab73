//! Exact arithmetic on integers of 128 bits, and their decimal texts.
//!
//! Each call gives the mathematical value, and says exactly where there is none in its type: nothing
//! here wraps or panics. The lemma files `Ring`, `Order` and `Floors` are public: crates above prove
//! their facts about sums, products and quotients of integers with them. The crate stands on std alone.
#![tactic(auto)]

ghost use Rattle.std.specs.Prelude.{◌≡◌, ◌+◌, ◌++◌, pos, ◌+ℤ◌, ◌*ℤ◌, ◌<ℤ◌, ◌≤ℤ◌, neg_ℤ, FitsSigned, SomeIff, OnOk, OnErr};
ghost use Rattle.std.specs.Fmt.{signed_decimal};
ghost use Rattle.std.specs.Int.{IsGcd, int_div_euclid, w128};
ghost use Rattle.num_row.specs.Ints.{narrowed, combined};
ghost use Rattle.num_row.specs.Divisors.{gcd_of};
ghost use Rattle.num_row.specs.Decimals.{decimal_number, IsShortestText};

use std::alloc::{AllocError, Global};

/// The greatest common divisor, and 0 of 0 and 0.
pub fn gcd(a: u128, b: u128) -> u128
    ensures greatest { IsGcd a b result }
    ensures value { result ≡ gcd_of a b }
{
    let mut divisor = a;
    let mut rest = b;
    while rest != 0 {
        (divisor, rest) = (rest, divisor % rest);
    }
    divisor
}

/// The quotient, rounded toward negative infinity.
pub fn floor_div(a: i128, b: i128) -> i128
    requires { pos 0 <ℤ b }
    ensures value { result ≡ int_div_euclid a b }
    ensures below { (result *ℤ b) ≤ℤ a }
    ensures above { a <ℤ (result *ℤ b +ℤ b) }
{
    a.div_euclid(b)
}

/// The quotient, rounded toward positive infinity.
pub fn ceil_div(a: i128, b: i128) -> i128
    requires { pos 0 <ℤ b }
    ensures value { result ≡ neg_ℤ (int_div_euclid (neg_ℤ a) b) }
    ensures above { a ≤ℤ (result *ℤ b) }
    ensures below { (result *ℤ b) <ℤ (a +ℤ b) }
{
    let floor = a.div_euclid(b);
    if a.rem_euclid(b) == 0 {
        floor
    } else {
        floor + 1
    }
}

/// The product, where it fits.
pub fn exact_mul(a: i128, b: i128) -> Option<i128>
    ensures { result ≡ narrowed (a *ℤ b) }
{
    a.checked_mul(b)
}

/// The sum, where it fits.
pub fn exact_add(a: i128, b: i128) -> Option<i128>
    ensures { result ≡ narrowed (a +ℤ b) }
{
    a.checked_add(b)
}

/// `a * x + b * y`, and none where one of the products or their sum doesn't fit.
pub fn checked_combine(a: i128, x: i128, b: i128, y: i128) -> Option<i128>
    ensures value { result ≡ combined a x b y }
    ensures exact { let first = a *ℤ x in let second = b *ℤ y in SomeIff result
        (FitsSigned w128 first × FitsSigned w128 second × FitsSigned w128 (first +ℤ second))
        (first +ℤ second) }
{
    let first = exact_mul(a, x)?;
    let second = exact_mul(b, y)?;
    exact_add(first, second)
}

/// The integer that a text of an optional `-` and ASCII digits writes; none for other bytes, and where
/// the integer doesn't fit. Leading zeros are allowed.
pub fn read_decimal(digits: &[u8]) -> Option<i128>
    ensures { result ≡ decimal_number digits.now }
{
    if digits.starts_with(b"+") {
        return None;
    }
    let Ok(text) = str::from_utf8(digits) else {
        return None;
    };
    text.parse::<i128>().ok()
}

/// Appends the shortest decimal text of an integer.
///
/// Where memory is wanting, `out` is as before.
pub fn write_decimal(alloc: Global, value: i128, out: &mut Vec<u8>) -> Result<(), AllocError>
    ensures ok { OnOk result (out.new.items ≡ out.old.items ++ signed_decimal value) }
    ensures err { OnErr result (out.new.items ≡ out.old.items) }
    ensures shortest { IsShortestText value (signed_decimal value) }
{
    let text = value.to_string(alloc)?;
    out.extend_from_slice(text.as_bytes())?;
    Ok(())
}
