//! Elimination: one variable, and a list of them.

ghost use Rattle.std.specs.Prelude.{◌≡◌, ◌+◌, ◌*◌, ◌<◌, nat_lt, IfOk};
ghost use Rattle.constraint_set.specs.Lists.{Each};
ghost use Rattle.constraint_set.specs.Points.{LinearSystem};
ghost use Rattle.constraint_set.specs.Elimination.{row_limit, step, steps, eliminated};
ghost use Rattle.projection.specs.Answers.{Meets};

use crate::fault::ReachFault;
use crate::pair::push_pairs;
use crate::side::{Side, rows_on};
use crate::tidy::tidy;
use constraint_set::{Rows, System};
use std::alloc::{AllocError, Global};

/// The most rows of a step, before any is dropped.
const MOST_ROWS: usize = 2048;

/// The most variables of a system.
pub(crate) const MOST_VARS: u32 = 64;

/// Whether a step has too many rows: those without the variable, and each pair.
fn is_over(without: usize, raising: usize, lowering: usize) -> bool
    ensures { result ≡ nat_lt row_limit (without + raising * lowering) }
{
    raising.saturating_mul(lowering).saturating_add(without) > MOST_ROWS
}

/// The rows once variable k is eliminated.
pub(crate) fn step_rows(alloc: Global, k: usize, rows: &Rows) -> Result<Rows, ReachFault>
    requires { k < rows.now.vars }
    ensures value { Meets (step k rows.now.rows) (λ out. out.rows) result }
    ensures vars { IfOk result (λ out. out.vars ≡ rows.now.vars) }
{
    let vars = rows.vars();
    let raising = rows_on(alloc, Side::Raising, k, rows)?;
    let lowering = rows_on(alloc, Side::Lowering, k, rows)?;
    let mut all = rows_on(alloc, Side::Without, k, rows)?;
    if is_over(all.len(), raising.len(), lowering.len()) {
        return Err(ReachFault::Rows);
    }
    push_pairs(alloc, k, &raising, &lowering, &mut all)?;
    let out = tidy(alloc, vars, &all)?;
    Ok(out)
}

/// The rows once the variables of a list are eliminated in order.
pub(crate) fn step_each(alloc: Global, rows: Rows, vars: &[u32]) -> Result<Rows, ReachFault>
    requires { Each (λ k. k < rows.vars) vars.now }
    ensures value { Meets (steps vars.now rows.rows) (λ out. out.rows) result }
    ensures vars { IfOk result (λ out. out.vars ≡ rows.vars) }
{
    let mut rows = rows;
    for k in vars {
        rows = step_rows(alloc, *k as usize, &rows)?;
    }
    Ok(rows)
}

/// The rows of a system once the variables of a list are eliminated in order.
pub(crate) fn project(alloc: Global, system: &System, vars: &[u32]) -> Result<Rows, ReachFault>
    requires { Each (λ k. k < system.now.vars) vars.now }
    ensures value { Meets (eliminated system.now vars.now) (λ out. out.rows) result }
    ensures vars { IfOk result (λ out. out.vars ≡ system.now.vars) }
{
    if system.vars() > MOST_VARS {
        return Err(ReachFault::Rows);
    }
    let rows = tidy(alloc, system.vars(), system.rows())?;
    step_each(alloc, rows, vars)
}
