//! Where an operation is the fault, its exact value elsewhere, and the value that a cast reads.

ghost use Rattle.std.specs.Prelude.{◌≡◌, ◌≢◌, ◌<◌, false, pos, neg_ℤ, ◌-ℤ◌, ◌*ℤ◌, int_div};
ghost use Rattle.int_ops.specs.Wrapped.{IsWidth, InRange, IsWithinProducts, unsigned};
ghost use Rattle.int_ops.specs.Operation.{quotient_down, quotient_up, IsQuotientDown, IsQuotientUp, exact_value, is_divide_fault, is_least_by_minus_one};
ghost use Rattle.int_ops.specs.Cast.{operand_value};

use crate::modulus::read_unsigned;
use crate::operation::{CastKind, Op};
use num_row::{ceil_div, floor_div};

/// Whether the operands are the least number and -1.
fn is_least_by_minus_one(bits: u32, a: i64, b: i64) -> bool
    requires { IsWidth bits }
    ensures { result ≡ is_least_by_minus_one bits a b }
{
    a as i128 == -2i128.pow(bits - 1) && b == -1
}

/// Whether an operation on these operands is the fault.
pub fn is_divide_fault(op: Op, bits: u32, a: i64, b: i64) -> bool
    requires { IsWidth bits }
    ensures { result ≡ is_divide_fault op bits a b }
{
    match op {
        Op::DivS | Op::FloorDivS | Op::CeilDivS => b == 0 || is_least_by_minus_one(bits, a, b),
        Op::RemS | Op::DivU | Op::RemU => b == 0,
        _ => false,
    }
}

/// The number with the other sign, which the least number has in more bits only.
fn opposite(value: i64) -> i128
    ensures { result ≡ neg_ℤ value }
{
    -(value as i128)
}

/// The quotient, rounded toward negative infinity.
fn quotient_down(a: i64, b: i64) -> i128
    requires { b ≢ pos 0 }
    ensures value { result ≡ quotient_down a b }
    ensures placed { IsQuotientDown a b result }
    ensures small { IsWithinProducts result }
{
    if b < 0 {
        floor_div(opposite(a), opposite(b))
    } else {
        floor_div(a as i128, b as i128)
    }
}

/// The quotient, rounded toward positive infinity.
fn quotient_up(a: i64, b: i64) -> i128
    requires { b ≢ pos 0 }
    ensures value { result ≡ quotient_up a b }
    ensures placed { IsQuotientUp a b result }
    ensures small { IsWithinProducts result }
{
    if b < 0 {
        ceil_div(opposite(a), opposite(b))
    } else {
        ceil_div(a as i128, b as i128)
    }
}

/// The product.
fn product(a: i64, b: i64) -> i128
    ensures value { result ≡ a *ℤ b }
    ensures small { IsWithinProducts result }
{
    a as i128 * b as i128
}

/// The quotient, rounded toward zero.
fn quotient(a: i64, b: i64) -> i128
    requires { b ≢ pos 0 }
    ensures value { result ≡ int_div a b }
    ensures small { IsWithinProducts result }
{
    a as i128 / b as i128
}

/// What the quotient rounded toward zero leaves of the number.
fn remainder(a: i64, b: i64) -> i128
    requires { b ≢ pos 0 }
    ensures value { result ≡ a -ℤ b *ℤ int_div a b }
    ensures small { IsWithinProducts result }
{
    a as i128 % b as i128
}

/// The divisor modulo 2^bits, which isn't zero.
fn read_divisor(bits: u32, value: i64) -> u64
    requires width { IsWidth bits }
    requires inside { InRange bits value }
    requires divisor { value ≢ pos 0 }
    ensures value { result ≡ unsigned bits value }
    ensures positive { 0 < result }
{
    read_unsigned(bits, value)
}

/// An unsigned value among the exact ones.
fn widened(value: u64) -> i128
    ensures value { result ≡ pos value }
    ensures small { IsWithinProducts result }
{
    value as i128
}

/// The exact value of an operation that isn't the fault.
pub fn exact_value(op: Op, bits: u32, a: i64, b: i64) -> i128
    requires width { IsWidth bits }
    requires inside { InRange bits b }
    requires no_fault { is_divide_fault op bits a b ≡ false }
    ensures value { result ≡ exact_value op bits a b }
    ensures small { IsWithinProducts result }
{
    match op {
        Op::Add => a as i128 + b as i128,
        Op::Sub => a as i128 - b as i128,
        Op::Mul => product(a, b),
        Op::DivS => quotient(a, b),
        Op::RemS => remainder(a, b),
        Op::DivU => widened(read_unsigned(bits, a) / read_divisor(bits, b)),
        Op::RemU => widened(read_unsigned(bits, a) % read_divisor(bits, b)),
        Op::FloorDivS => quotient_down(a, b),
        Op::CeilDivS => quotient_up(a, b),
        Op::And => widened(read_unsigned(bits, a) & read_unsigned(bits, b)),
        Op::Or => widened(read_unsigned(bits, a) | read_unsigned(bits, b)),
        Op::Xor => widened(read_unsigned(bits, a) ^ read_unsigned(bits, b)),
        Op::MaxS => a.max(b) as i128,
        Op::MinS => a.min(b) as i128,
        Op::MaxU => widened(read_unsigned(bits, a).max(read_unsigned(bits, b))),
        Op::MinU => widened(read_unsigned(bits, a).min(read_unsigned(bits, b))),
    }
}

/// The value that a cast reads of a number of `from` bits: the unsigned one for `ExtU`, else the number.
pub fn read_operand(kind: CastKind, from: u32, a: i64) -> i128
    requires { IsWidth from }
    ensures value { result ≡ operand_value kind from a }
    ensures small { IsWithinProducts result }
{
    match kind {
        CastKind::ExtU => widened(read_unsigned(from, a)),
        CastKind::Index | CastKind::ExtS | CastKind::Trunc => a as i128,
    }
}
