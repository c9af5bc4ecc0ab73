// The interval of an expression, level by level.
ghost use Rattle.std.specs.Prelude.{◌≡◌, ◌+ℤ◌, ◌-ℤ◌, ◌*ℤ◌, ◌<ℤ◌, neg_ℤ, pos, slice_get, length, true, List, ℤ, IfSome};
ghost use Rattle.affine_expr.specs.Bounded.{range_at, ranges, interval_of, AreIn, LiesIn};
ghost use Rattle.affine_expr.specs.Guarded.{small};
ghost use Rattle.affine_expr.specs.Pure.{is_outside, is_pure, has_leaves_below};
ghost use Rattle.affine_expr.specs.Spans.{small_fixed, spanned, negated, added, taken, scaled, times, floored, ceiled, reduced, leaf, span_of, interval_at};
ghost use Rattle.affine_expr.specs.Spread.{range_of, both_fixed, one_fixed};
ghost use Rattle.affine_expr.specs.Value.{value, floor_div, ceil_div, floor_mod};

use crate::{Expr, Interval};
use num_row::{ceil_div, floor_div};

/// An interval within the limits, with the value of an expression that has no dimension and no symbol.
#[derive(Clone, Copy)]
struct Span {
    least: i64,
    greatest: i64,
    fixed: Option<i64>,
}

fn is_outside(value: i128) -> bool
    ensures { result ≡ is_outside value }
{
    value < -4611686018427387904 || 4611686018427387904 < value
}

#[tactic(auto, unfolding(crate::specs::Guarded::small), using(crate::proofs::Spanned::kept))]
pub(crate) fn small(value: i128) -> Option<i64>
    ensures { result ≡ small value }
{
    if is_outside(value) {
        None
    } else {
        Some(value as i64)
    }
}

fn small_fixed(value: Option<i128>) -> Option<Option<i64>>
    ensures { result ≡ small_fixed value }
{
    match value {
        Some(value) => Some(Some(small(value)?)),
        None => Some(None),
    }
}

#[tactic(auto, unfolding(crate::specs::Spans::spanned))]
fn spanned(least: i128, greatest: i128, fixed: Option<i128>) -> Option<Span>
    ensures { result ≡ spanned least greatest fixed }
{
    let least = small(least)?;
    let greatest = small(greatest)?;
    let fixed = small_fixed(fixed)?;
    Some(Span {
        least,
        greatest,
        fixed,
    })
}

pub(crate) fn minus(value: i64) -> i128
    ensures { result ≡ neg_ℤ value }
{
    -(value as i128)
}

pub(crate) fn sum(left: i64, right: i64) -> i128
    ensures { result ≡ left +ℤ right }
{
    left as i128 + right as i128
}

pub(crate) fn difference(left: i64, right: i64) -> i128
    ensures { result ≡ left -ℤ right }
{
    left as i128 - right as i128
}

pub(crate) fn product(left: i64, right: i64) -> i128
    ensures { result ≡ left *ℤ right }
{
    left as i128 * right as i128
}

#[tactic(auto, using(crate::proofs::Divisions::floor_is))]
pub(crate) fn floor(left: i64, right: i64) -> i128
    requires { pos 0 <ℤ right }
    ensures { result ≡ floor_div left right }
{
    floor_div(left as i128, right as i128)
}

#[tactic(auto, using(crate::proofs::Divisions::ceil_is))]
pub(crate) fn ceiling(left: i64, right: i64) -> i128
    requires { pos 0 <ℤ right }
    ensures { result ≡ ceil_div left right }
{
    ceil_div(left as i128, right as i128)
}

#[tactic(auto, using(crate::proofs::Divisions::mod_is))]
pub(crate) fn rest(left: i64, right: i64) -> i128
    requires { pos 0 <ℤ right }
    ensures { result ≡ floor_mod left right }
{
    (left as i128).rem_euclid(right as i128)
}

fn fixed_minus(value: Option<i64>) -> Option<i128>
    ensures { result ≡ one_fixed neg_ℤ value }
{
    Some(minus(value?))
}

fn fixed_sum(left: Option<i64>, right: Option<i64>) -> Option<i128>
    ensures { result ≡ both_fixed (λ x y. x +ℤ y) left right }
{
    Some(sum(left?, right?))
}

fn fixed_difference(left: Option<i64>, right: Option<i64>) -> Option<i128>
    ensures { result ≡ both_fixed (λ x y. x -ℤ y) left right }
{
    Some(difference(left?, right?))
}

fn fixed_product(left: Option<i64>, right: Option<i64>) -> Option<i128>
    ensures { result ≡ both_fixed (λ x y. x *ℤ y) left right }
{
    Some(product(left?, right?))
}

fn fixed_floor(value: Option<i64>, divisor: i64) -> Option<i128>
    requires { pos 0 <ℤ divisor }
    ensures { result ≡ both_fixed floor_div value (Some divisor) }
{
    Some(floor(value?, divisor))
}

fn fixed_ceiling(value: Option<i64>, divisor: i64) -> Option<i128>
    requires { pos 0 <ℤ divisor }
    ensures { result ≡ both_fixed ceil_div value (Some divisor) }
{
    Some(ceiling(value?, divisor))
}

fn fixed_rest(value: Option<i64>, divisor: i64) -> Option<i128>
    requires { pos 0 <ℤ divisor }
    ensures { result ≡ both_fixed floor_mod value (Some divisor) }
{
    Some(rest(value?, divisor))
}

#[tactic(auto, unfolding(crate::specs::Spans::negated))]
fn negated(part: Span) -> Option<Span>
    ensures { result ≡ negated part }
{
    spanned(
        minus(part.greatest),
        minus(part.least),
        fixed_minus(part.fixed),
    )
}

#[tactic(auto, unfolding(crate::specs::Spans::added))]
fn added(left: Span, right: Span) -> Option<Span>
    ensures { result ≡ added left right }
{
    let fixed = fixed_sum(left.fixed, right.fixed);
    spanned(
        sum(left.least, right.least),
        sum(left.greatest, right.greatest),
        fixed,
    )
}

#[tactic(auto, unfolding(crate::specs::Spans::taken))]
fn taken(left: Span, right: Span) -> Option<Span>
    ensures { result ≡ taken left right }
{
    let fixed = fixed_difference(left.fixed, right.fixed);
    spanned(
        difference(left.least, right.greatest),
        difference(left.greatest, right.least),
        fixed,
    )
}

#[tactic(auto, unfolding(crate::specs::Spans::scaled))]
fn scaled(part: Span, factor: i64, fixed: Option<i128>) -> Option<Span>
    ensures { result ≡ scaled part factor fixed }
{
    let first = product(part.least, factor);
    let second = product(part.greatest, factor);
    spanned(first.min(second), first.max(second), fixed)
}

#[tactic(auto, unfolding(crate::specs::Spans::times))]
fn times(left: Span, right: Span) -> Option<Span>
    ensures { result ≡ times left right }
{
    let fixed = fixed_product(left.fixed, right.fixed);
    match right.fixed {
        Some(factor) => scaled(left, factor, fixed),
        None => scaled(right, left.fixed?, fixed),
    }
}

#[tactic(auto, unfolding(crate::specs::Spans::floored))]
fn floored(left: Span, right: Span) -> Option<Span>
    ensures { result ≡ floored left right }
{
    let divisor = right.fixed?;
    if 0 < divisor {
        let fixed = fixed_floor(left.fixed, divisor);
        spanned(
            floor(left.least, divisor),
            floor(left.greatest, divisor),
            fixed,
        )
    } else {
        None
    }
}

#[tactic(auto, unfolding(crate::specs::Spans::ceiled))]
fn ceiled(left: Span, right: Span) -> Option<Span>
    ensures { result ≡ ceiled left right }
{
    let divisor = right.fixed?;
    if 0 < divisor {
        let fixed = fixed_ceiling(left.fixed, divisor);
        spanned(
            ceiling(left.least, divisor),
            ceiling(left.greatest, divisor),
            fixed,
        )
    } else {
        None
    }
}

#[tactic(auto, unfolding(crate::specs::Spans::reduced))]
fn reduced(left: Span, right: Span) -> Option<Span>
    ensures { result ≡ reduced left right }
{
    let divisor = right.fixed?;
    if 0 < divisor {
        spanned(0, difference(divisor, 1), fixed_rest(left.fixed, divisor))
    } else {
        None
    }
}

fn nth(intervals: &[Interval], number: u32) -> Option<Interval>
    ensures { result ≡ slice_get intervals.now number }
{
    if (number as usize) < intervals.len() {
        Some(intervals[number as usize])
    } else {
        None
    }
}

fn leaf(interval: Option<Interval>) -> Option<Span>
    ensures { result ≡ leaf interval }
{
    let Interval { least, greatest } = interval?;
    spanned(least as i128, greatest as i128, None)
}

fn shown(span: Option<Span>) -> Option<Interval>
    ensures { result ≡ interval_at span }
{
    let Span {
        least,
        greatest,
        ..
    } = span?;
    Some(Interval { least, greatest })
}

impl Expr {
    fn span(&self, dims: &[Interval], syms: &[Interval]) -> Option<Span>
        ensures { result ≡ span_of dims.now syms.now self.now }
    {
        match self {
            Expr::Dim(number) => leaf(nth(dims, *number)),
            Expr::Sym(number) => leaf(nth(syms, *number)),
            Expr::Const(value) => spanned(*value as i128, *value as i128, Some(*value as i128)),
            Expr::Neg(part) => negated(part.get().span(dims, syms)?),
            Expr::Add(left, right) => added(
                left.get().span(dims, syms)?,
                right.get().span(dims, syms)?,
            ),
            Expr::Sub(left, right) => taken(
                left.get().span(dims, syms)?,
                right.get().span(dims, syms)?,
            ),
            Expr::Mul(left, right) => times(
                left.get().span(dims, syms)?,
                right.get().span(dims, syms)?,
            ),
            Expr::FloorDiv(left, right) => floored(
                left.get().span(dims, syms)?,
                right.get().span(dims, syms)?,
            ),
            Expr::CeilDiv(left, right) => ceiled(
                left.get().span(dims, syms)?,
                right.get().span(dims, syms)?,
            ),
            Expr::Mod(left, right) => reduced(
                left.get().span(dims, syms)?,
                right.get().span(dims, syms)?,
            ),
        }
    }

    /// The interval of the values that the expression has where its dimensions and symbols lie in their intervals.
    ///
    /// A sum of intervals has the sums of their ends; a side of a product or a division without dimension and symbol
    /// counts by its value, and `mod c` gives the interval from 0 to c - 1. There is none exactly where the interval of a
    /// part, the expression itself included, leaves -2^62 to 2^62.
    #[tactic(auto, using(crate::proofs::Agreement::interval_found))]
    pub fn interval(&self, dims: &[Interval], syms: &[Interval]) -> Option<Interval>
        requires pure { is_pure self.now ≡ true }
        requires leaves { has_leaves_below (length dims.now) (length syms.now) self.now ≡ true }
        ensures value { result ≡ interval_of dims.now syms.now self.now }
        ensures range { IfSome result (λ i. range_at i ≡ range_of (ranges dims.now) (ranges syms.now) self.now) }
        ensures sound { (ds ss : List ℤ) → AreIn ds dims.now → AreIn ss syms.now → LiesIn (value ds ss self.now) result }
    {
        shown(self.span(dims, syms))
    }
}
