//! The bounds of one variable in rows that name no other.

ghost use Rattle.std.specs.Prelude.{◌≡◌, ◌<◌, pos, ◌<ℤ◌, neg_ℤ, length};
ghost use Rattle.std.specs.Int.{int_div_euclid};
ghost use Rattle.num_row.specs.Ints.{narrowed};
ghost use Rattle.constraint_set.specs.Lists.{Each};
ghost use Rattle.constraint_set.specs.Points.{LinearRow, coef};
ghost use Rattle.constraint_set.specs.Elimination.{or_wide};
ghost use Rattle.constraint_set.specs.Reach.{upper_bound};
ghost use Rattle.projection.specs.Answers.{Meets};
ghost use Rattle.projection.specs.Reaches.{HasSign, bound_at, tighter, tighter_than, tightest_of};

use crate::fault::ReachFault;
use constraint_set::Row;
use num_row::floor_div;

/// An end of a reach: its bounds are the rounded-up lower ones, or the rounded-down upper ones.
#[derive(Clone, Copy)]
pub(crate) enum End {
    Least,
    Greatest,
}

/// The negated number, where it fits.
pub(crate) fn opposite(number: i128) -> Result<i128, ReachFault>
    ensures { Meets (or_wide (narrowed (neg_ℤ number))) (λ x. x) result }
{
    match negated(number) {
        Some(negated) => Ok(negated),
        None => Err(ReachFault::Wide),
    }
}

fn negated(number: i128) -> Option<i128>
    ensures { result ≡ narrowed (neg_ℤ number) }
{
    number.checked_neg()
}

/// The quotient by the size of a negative number, rounded down. The size may be 2^127.
fn floor_by_size(number: i128, negative: i128) -> i128
    requires { negative <ℤ pos 0 }
    ensures { result ≡ int_div_euclid number (neg_ℤ negative) }
{
    if negative > i128::MIN {
        return floor_div(number, -negative);
    }
    if number < 0 { -1 } else { 0 }
}

/// The rounded-down upper bound of the variable in a row.
fn upper_of(row: &Row) -> i128
    requires named { 0 < length row.now.coefs }
    requires sign { coef 0 row.now <ℤ pos 0 }
    ensures { result ≡ upper_bound row.now }
{
    floor_by_size(row.constant, row.coefs[0])
}

/// The bound of the variable in a row.
#[tactic(auto, using(crate::proofs::Ends::fitting))]
fn bound_of(end: End, row: &Row) -> Result<i128, ReachFault>
    requires named { 0 < length row.now.coefs }
    requires sign { HasSign end (coef 0 row.now) }
    ensures { Meets (or_wide (narrowed (bound_at end row.now))) (λ x. x) result }
{
    match end {
        End::Least => opposite(floor_div(row.constant, row.coefs[0])),
        End::Greatest => Ok(upper_of(row)),
    }
}

/// The one of two bounds that says more.
fn tighter_of(end: End, best: Option<i128>, bound: i128) -> i128
    ensures { result ≡ tighter_than end best bound }
{
    match (end, best) {
        (_, None) => bound,
        (End::Least, Some(best)) => best.max(bound),
        (End::Greatest, Some(best)) => best.min(bound),
    }
}

/// The tightest bound of rows. They are none only where the form isn't bounded.
pub(crate) fn tightest(end: End, rows: &[Row]) -> Result<i128, ReachFault>
    requires named { Each (λ r. 0 < length r.coefs) rows.now }
    requires sign { Each (λ r. HasSign end (coef 0 r)) rows.now }
    ensures { Meets (tightest_of end rows.now) (λ x. x) result }
{
    let mut best = None;
    for row in rows {
        let bound = bound_of(end, row)?;
        best = Some(tighter_of(end, best, bound));
    }
    best.ok_or(ReachFault::Wide)
}
