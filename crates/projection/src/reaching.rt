//! How far a form reaches over the scaled points of a system, and whether there are any.

ghost use Rattle.std.specs.Prelude.{◌≡◌, ◌<◌, ◌+◌, pos, ◌<ℤ◌, neg_ℤ, suc, map, length, ◌∷◌, IfOk, MatchBool, int_lt};
ghost use Rattle.constraint_set.specs.Elimination.{countdown};
ghost use Rattle.constraint_set.specs.Reach.{HasNoPoint, HasPoint, IsBounded, HasBounds, TellsReach, has_negative, emptiness, reach_of};
ghost use Rattle.projection.specs.Answers.{Meets};
ghost use Rattle.projection.specs.Reaches.{form_of, shape_of, both_bounds};

use crate::bounds::{End, tightest};
use crate::fault::ReachFault;
use crate::side::{Side, rows_on};
use crate::steps::{MOST_VARS, project, step_rows};
use crate::value::only_value;
use constraint_set::{Rows, System};
use std::alloc::{AllocError, Global};

/// How far a form reaches: nowhere, where there is no scaled point, or from the least to the greatest integer.
///
/// The least is the least integer k for which some scaled point has `form <= k`, the greatest the greatest integer k for
/// which some scaled point has `form >= k`.
#[derive(Clone, Copy)]
pub enum Reached {
    Never,
    Between { least: i128, greatest: i128 },
}

/// The reach of the form `coefs . x + constant` over the points of a system. Where the form isn't bounded on both sides
/// the answer may be the refusal `Wide`, in place of a bound that isn't there.
pub fn reach(
    alloc: Global,
    system: &System,
    coefs: &[i128],
    constant: i128,
) -> Result<Reached, ReachFault>
    requires { length coefs.now ≡ system.now.vars }
    ensures value { let form = form_of coefs.now constant in Meets (reach_of system.now form) shape_of result }
    ensures tells { let form = form_of coefs.now constant in IfOk result (λ reached. TellsReach system.now form (shape_of reached)) }
    ensures bounds { let form = form_of coefs.now constant in IsBounded system.now form → HasBounds system.now form }
{
    let _wide = system.vars();
    find_reach(alloc, system, coefs, constant)
}

fn find_reach(
    alloc: Global,
    system: &System,
    coefs: &[i128],
    constant: i128,
) -> Result<Reached, ReachFault>
    requires { length coefs.now ≡ system.now.vars }
    ensures { Meets (reach_of system.now (form_of coefs.now constant)) shape_of result }
{
    if system.vars() >= MOST_VARS {
        return Err(ReachFault::Rows);
    }
    let rows = only_value(alloc, system, coefs, constant)?;
    let last = step_rows(alloc, 0, &rows)?;
    if is_negative(&last) {
        return Ok(Reached::Never);
    }
    between(alloc, &rows)
}

/// The bounds of the first variable, in rows that name no other.
fn between(alloc: Global, rows: &Rows) -> Result<Reached, ReachFault>
    requires { 0 < rows.now.vars }
    ensures { Meets (both_bounds rows.now.rows) shape_of result }
{
    let raising = rows_on(alloc, Side::Raising, 0, rows)?;
    let least = tightest(End::Least, &raising)?;
    let lowering = rows_on(alloc, Side::Lowering, 0, rows)?;
    let greatest = tightest(End::Greatest, &lowering)?;
    Ok(Reached::Between { least, greatest })
}

/// Whether a system has no scaled point.
pub fn is_empty(alloc: Global, system: &System) -> Result<bool, ReachFault>
    ensures value { Meets (emptiness system.now) (λ empty. empty) result }
    ensures tells { IfOk result (λ empty. MatchBool empty (HasNoPoint system.now) (HasPoint system.now)) }
{
    let vars = system.vars();
    if vars > MOST_VARS {
        return Err(ReachFault::Rows);
    }
    let all = numbers_below(alloc, vars)?;
    let rows = project(alloc, system, &all)?;
    Ok(is_negative(&rows))
}

/// The numbers below a count, from the last to the first.
fn numbers_below(alloc: Global, count: u32) -> Result<Vec<u32>, AllocError>
    ensures { IfOk result (λ out. out.items ≡ countdown count) }
{
    let mut out = Vec::new(alloc);
    for passed in 0..count {
        out.push(count - 1 - passed)?;
    }
    Ok(out)
}

/// Whether some row has a negative constant.
fn is_negative(rows: &Rows) -> bool
    ensures { result ≡ has_negative rows.now.rows }
{
    for at in 0..rows.count() {
        let (_coefs, constant) = rows.row(at);
        if is_below_zero(constant) {
            return true;
        }
    }
    false
}

fn is_below_zero(number: i128) -> bool
    ensures { result ≡ int_lt number (pos 0) }
{
    number < 0
}
