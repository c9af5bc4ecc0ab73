//! The operations on integers, the casts between widths, and the one fault.

use thiserror::Error;

/// An operation on two signed numbers of one width, as the `arith` operation of its name computes it.
///
/// A name that ends in `S` takes its operands as signed numbers, one that ends in `U` takes them modulo
/// 2^width, as unsigned numbers.
#[derive(Clone, Copy)]
pub enum Op {
    /// `addi`: the sum.
    Add,
    /// `subi`: the difference.
    Sub,
    /// `muli`: the product.
    Mul,
    /// `divsi`: the quotient, rounded toward zero.
    DivS,
    /// `remsi`: what the quotient of `DivS` leaves, with the sign of the left operand.
    RemS,
    /// `divui`: the quotient of the unsigned values, rounded down.
    DivU,
    /// `remui`: the remainder of the unsigned values.
    RemU,
    /// `floordivsi`: the quotient, rounded toward negative infinity.
    FloorDivS,
    /// `ceildivsi`: the quotient, rounded toward positive infinity.
    CeilDivS,
    /// `andi`: bit by bit, 1 where both bits are.
    And,
    /// `ori`: bit by bit, 1 where one of the bits is.
    Or,
    /// `xori`: bit by bit, 1 where the bits differ.
    Xor,
    /// `maxsi`: the greater operand in the signed order.
    MaxS,
    /// `minsi`: the lesser operand in the signed order.
    MinS,
    /// `maxui`: the greater operand in the unsigned order.
    MaxU,
    /// `minui`: the lesser operand in the unsigned order.
    MinU,
}

/// A cast of a number from one width to another.
#[derive(Clone, Copy)]
pub enum CastKind {
    /// `index_cast`: keeps the signed value where the width doesn't shrink, else takes it modulo 2^width.
    Index,
    /// `extsi`: to a greater width, keeps the signed value.
    ExtS,
    /// `extui`: to a greater width, keeps the unsigned value.
    ExtU,
    /// `trunci`: to a lesser width, takes the value modulo 2^width.
    Trunc,
}

/// The integers of `N` bits.
pub struct Width<const N: u32>;

/// The fault of a division: the divisor is zero, or the quotient is one past the greatest number.
#[derive(Clone, Copy, Debug, Error)]
#[error("divide")]
pub struct Divide;
