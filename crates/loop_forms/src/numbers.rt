// Numbers of 128 bits; want of memory stands for one that leaves them, or for which no expression has room.
ghost use Rattle.std.specs.Prelude.{◌≡◌, ◌<ℤ◌, ◌+ℤ◌, ◌-ℤ◌, ◌*ℤ◌, pos, IfOk};
ghost use Rattle.std.specs.Int.{int_min, int_max};
ghost use Rattle.affine_expr.specs.Value.{floor_div};

use num_row::{exact_add, exact_mul, floor_div};
use std::alloc::AllocError;

pub(crate) fn wide(value: i64) -> i128
    ensures { result ≡ value }
{
    value as i128
}

pub(crate) fn count(value: u32) -> i128
    ensures { result ≡ pos value }
{
    value as i128
}

/// A number of 64 bits, and want of memory for one that no expression has room for.
pub(crate) fn narrow(value: i128) -> Result<i64, AllocError>
    ensures { IfOk result (λ number. number ≡ value) }
{
    if i64::MIN as i128 <= value && value <= i64::MAX as i128 {
        Ok(value as i64)
    } else {
        Err(AllocError)
    }
}

#[tactic(auto, unfolding(num_row::specs::Ints::narrowed))]
pub(crate) fn wide_sum(left: i128, right: i128) -> Result<i128, AllocError>
    ensures { IfOk result (λ sum. sum ≡ left +ℤ right) }
{
    exact_add(left, right).ok_or(AllocError)
}

pub(crate) fn wide_difference(left: i128, right: i128) -> Result<i128, AllocError>
    ensures { IfOk result (λ difference. difference ≡ left -ℤ right) }
{
    left.checked_sub(right).ok_or(AllocError)
}

#[tactic(auto, unfolding(num_row::specs::Ints::narrowed))]
pub(crate) fn wide_product(left: i128, right: i128) -> Result<i128, AllocError>
    ensures { IfOk result (λ product. product ≡ left *ℤ right) }
{
    exact_mul(left, right).ok_or(AllocError)
}

/// The quotient rounded down.
#[tactic(auto, using(affine_expr::proofs::Divisions::floor_is))]
pub(crate) fn quotient(number: i128, divisor: i128) -> i128
    requires positive { pos 0 <ℤ divisor }
    ensures { result ≡ floor_div number divisor }
{
    floor_div(number, divisor)
}

pub(crate) fn lesser(left: i128, right: i128) -> i128
    ensures { result ≡ int_min left right }
{
    left.min(right)
}

pub(crate) fn greater(left: i128, right: i128) -> i128
    ensures { result ≡ int_max left right }
{
    left.max(right)
}
