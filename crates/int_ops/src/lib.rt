//! The integer operations of the `arith` dialect, on numbers of 2 to 64 bits.
//!
//! Each operation has its exact value over the integers; its result is the one number of the signed
//! range of the width that is equal to it modulo 2^width, and a division that has none is refused. The
//! law is proved once for every width. No call takes memory.
#![tactic(auto)]

mod exact;
mod modulus;
mod operation;

ghost use Rattle.std.specs.Prelude.{◌≡◌, Some, None, MatchResult, IfOk, min};
ghost use Rattle.int_ops.specs.Wrapped.{IsWidth, InRange, SameModulo, IsReduced};
ghost use Rattle.int_ops.specs.Operation.{exact_value, operation};
ghost use Rattle.int_ops.specs.Cast.{CanCast, cast_value};

use exact::{exact_value, is_divide_fault, read_operand};
use modulus::wrap;
pub use operation::{CastKind, Divide, Op, Width};

impl<const N: u32> Width<N> {
    /// What the operation gives on two numbers of `N` bits: its exact value modulo 2^N, in the signed range.
    ///
    /// # Errors
    ///
    /// `Divide`, exactly where the operation is a division or a remainder by zero, or the quotient of the
    /// least number by -1.
    pub fn apply(op: Op, a: i64, b: i64) -> Result<i64, Divide>
        requires width { IsWidth N }
        requires left { InRange N a }
        requires right { InRange N b }
        ensures exact { MatchResult result
            (λ value. operation op N a b ≡ Some value)
            (λ _. operation op N a b ≡ None) }
        ensures reduced { IfOk result (IsReduced N (exact_value op N a b)) }
    {
        if is_divide_fault(op, N, a, b) {
            return Err(Divide);
        }
        Ok(wrap(N, exact_value(op, N, a, b)))
    }
}

/// What the operation gives on two numbers of `bits` bits, as `Width::apply` at that width.
///
/// # Errors
///
/// `Divide`, exactly where `Width::apply` has it.
pub fn apply(op: Op, bits: u32, a: i64, b: i64) -> Result<i64, Divide>
    requires width { IsWidth bits }
    requires left { InRange bits a }
    requires right { InRange bits b }
    ensures exact { MatchResult result
        (λ value. operation op bits a b ≡ Some value)
        (λ _. operation op bits a b ≡ None) }
    ensures reduced { IfOk result (IsReduced bits (exact_value op bits a b)) }
{
    macro_rules! at_each_width {
        ($($width:literal)*) => {
            match bits {
                $($width => Width::<$width>::apply(op, a, b),)*
                _ => unreachable!(),
            }
        };
    }
    at_each_width!(
        2 3 4 5 6 7 8 9 10 11 12 13 14 15 16 17 18 19 20 21 22 23 24 25 26 27 28 29 30 31 32 33 34
        35 36 37 38 39 40 41 42 43 44 45 46 47 48 49 50 51 52 53 54 55 56 57 58 59 60 61 62 63 64
    )
}

/// The cast of a number of `from` bits to `to` bits.
pub fn cast(kind: CastKind, from: u32, to: u32, a: i64) -> i64
    requires from { IsWidth from }
    requires to { IsWidth to }
    requires kind { CanCast kind from to }
    requires inside { InRange from a }
    ensures value { result ≡ cast_value kind from to a }
    ensures inside { InRange to result }
    ensures same { SameModulo (min from to) result a }
{
    wrap(to, read_operand(kind, from, a))
}
