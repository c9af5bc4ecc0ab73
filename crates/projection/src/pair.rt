//! The pair of a row in which a variable has a positive coefficient and a row in which it has a negative one.

ghost use Rattle.std.specs.Prelude.{◌≡◌, ℕ, ◌<◌, ◌/◌, pos, ◌<ℤ◌, length, unsigned_abs};
ghost use Rattle.num_row.specs.Ints.{narrowed};
ghost use Rattle.constraint_set.specs.Lists.{Each};
ghost use Rattle.constraint_set.specs.Points.{LinearRow, coef};
ghost use Rattle.constraint_set.specs.Elimination.{or_wide, mixed_by, pair_of, pairs_with, pairs_of};
ghost use Rattle.projection.specs.Answers.{Meets, Appends};

use crate::fault::ReachFault;
use constraint_set::Row;
use num_row::{checked_combine, gcd};
use std::alloc::Global;

/// `a * left + b * right`, coefficient by coefficient: `Wide` where a product or a sum isn't in 128 bits.
pub fn mix(
    alloc: Global,
    a: i128,
    left: &[i128],
    b: i128,
    right: &[i128],
) -> Result<Vec<i128>, ReachFault>
    requires { length left.now ≡ length right.now }
    ensures { Meets (mixed_by a left.now b right.now) (λ v. v.items) result }
{
    let mut coefs = Vec::with_capacity(alloc, left.len())?;
    for i in 0..left.len() {
        let Some(number) = checked_combine(a, left[i], b, right[i]) else {
            return Err(ReachFault::Wide);
        };
        coefs.push(number)?;
    }
    Ok(coefs)
}

/// The size of a coefficient by a divisor, where it fits.
#[tactic(auto, unfolding(num_row::specs::Ints::narrowed))]
fn factor(size: u128, shared: u128) -> Result<i128, ReachFault>
    requires { 0 < shared }
    ensures { Meets (or_wide (narrowed (pos (size / shared)))) (λ x. x) result }
{
    let quotient = size / shared;
    if quotient > i128::MAX as u128 {
        return Err(ReachFault::Wide);
    }
    Ok(quotient as i128)
}

/// The size of a coefficient.
fn size_at(row: &Row, k: usize) -> u128
    requires { k < length row.now.coefs }
    ensures { result ≡ unsigned_abs (coef k row.now) }
{
    row.coefs[k].unsigned_abs()
}

/// The pair of a row p that raises variable k and a row n that lowers it.
fn pair(alloc: Global, k: usize, p: &Row, n: &Row) -> Result<Row, ReachFault>
    requires in_range { k < length p.now.coefs }
    requires same { length p.now.coefs ≡ length n.now.coefs }
    requires raises { pos 0 <ℤ coef k p.now }
    ensures { Meets (pair_of k p.now n.now) (λ row. row) result }
{
    let up = size_at(p, k);
    let down = size_at(n, k);
    let shared = gcd(up, down);
    let a = factor(down, shared)?;
    let b = factor(up, shared)?;
    let coefs = mix(alloc, a, &p.coefs, b, &n.coefs)?;
    let Some(constant) = checked_combine(a, p.constant, b, n.constant) else {
        return Err(ReachFault::Wide);
    };
    Ok(Row { coefs, constant })
}

/// Appends the pairs of a row that raises variable k with each row that lowers it.
fn push_with(
    alloc: Global,
    k: usize,
    p: &Row,
    lowering: &[Row],
    out: &mut Vec<Row>,
) -> Result<(), ReachFault>
    requires in_range { k < length p.now.coefs }
    requires same { Each (λ r. length p.now.coefs ≡ length r.coefs) lowering.now }
    requires raises { pos 0 <ℤ coef k p.now }
    ensures { Appends (pairs_with k p.now lowering.now) out.old.items out.new.items result }
{
    for n in lowering {
        let made = pair(alloc, k, p, n)?;
        out.push(made)?;
    }
    Ok(())
}

/// Appends the pairs of all rows that raise variable k with all that lower it.
pub(crate) fn push_pairs(
    alloc: Global,
    k: usize,
    raising: &[Row],
    lowering: &[Row],
    out: &mut Vec<Row>,
) -> Result<(), ReachFault>
    requires wide { Each (λ p. k < length p.coefs) raising.now }
    requires same { Each (λ p. Each (λ r. length p.coefs ≡ length r.coefs) lowering.now) raising.now }
    requires raises { Each (λ p. pos 0 <ℤ coef k p) raising.now }
    ensures { Appends (pairs_of k raising.now lowering.now) out.old.items out.new.items result }
{
    for p in raising {
        push_with(alloc, k, p, lowering, out)?;
    }
    Ok(())
}
