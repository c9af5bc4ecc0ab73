//! A system with a variable put before all others, which is the value of a form.

ghost use Rattle.std.specs.Prelude.{◌≡◌, ◌<◌, ◌+◌, suc, map, length, ◌∷◌, IfOk};
ghost use Rattle.constraint_set.specs.Lists.{Each};
ghost use Rattle.constraint_set.specs.Points.{LinearRow, LinearSystem, AreWide};
ghost use Rattle.constraint_set.specs.Elimination.{countdown};
ghost use Rattle.constraint_set.specs.Reach.{behind, negated, valued};
ghost use Rattle.projection.specs.Answers.{Meets};
ghost use Rattle.projection.specs.Reaches.{form_of, value_rows};

use crate::bounds::opposite;
use crate::fault::ReachFault;
use crate::steps::step_each;
use crate::tidy::tidy;
use constraint_set::{Row, Rows, System};
use std::alloc::{AllocError, Global};

/// A number and then a list.
fn put_before(alloc: Global, first: i128, rest: &[i128]) -> Result<Vec<i128>, AllocError>
    ensures { IfOk result (λ out. out.items ≡ first ∷ rest.now) }
{
    let mut out = Vec::new(alloc);
    out.push(first)?;
    out.extend_from_slice(rest)?;
    Ok(out)
}

/// The negated numbers of a list.
fn negate(alloc: Global, numbers: &[i128]) -> Result<Vec<i128>, ReachFault>
    ensures { Meets (negated numbers.now) (λ out. out.items) result }
{
    let mut out = Vec::new(alloc);
    for number in numbers {
        let opposite = opposite(*number)?;
        out.push(opposite)?;
    }
    Ok(out)
}

/// The rows behind a new variable that they don't name.
fn behind_rows(alloc: Global, rows: &[Row]) -> Result<Vec<Row>, AllocError>
    ensures { IfOk result (λ out. out.items ≡ map behind rows.now) }
{
    let mut out = Vec::new(alloc);
    for row in rows {
        let coefs = put_before(alloc, 0, &row.coefs)?;
        out.push(Row {
            coefs,
            constant: row.constant,
        })?;
    }
    Ok(out)
}

/// The rows of a system, and behind them the two that make a new first variable the value of a form.
fn with_value(
    alloc: Global,
    system: &System,
    coefs: &[i128],
    constant: i128,
) -> Result<Vec<Row>, ReachFault>
    ensures { Meets (valued system.now (form_of coefs.now constant)) (λ out. out.items) result }
{
    let negated = negate(alloc, coefs)?;
    let below = opposite(constant)?;
    let mut out = behind_rows(alloc, system.rows())?;
    let at_least = put_before(alloc, 1, &negated)?;
    out.push(Row {
        coefs: at_least,
        constant: below,
    })?;
    let at_most = put_before(alloc, -1, coefs)?;
    out.push(Row {
        coefs: at_most,
        constant,
    })?;
    Ok(out)
}

/// The numbers from a count down to 1.
fn numbers_to(alloc: Global, count: u32) -> Result<Vec<u32>, AllocError>
    ensures { IfOk result (λ out. out.items ≡ map suc (countdown count)) }
{
    let mut out = Vec::new(alloc);
    for passed in 0..count {
        out.push(count - passed)?;
    }
    Ok(out)
}

/// The rows of a system and a form once all variables but the value of the form are eliminated.
pub(crate) fn only_value(
    alloc: Global,
    system: &System,
    coefs: &[i128],
    constant: i128,
) -> Result<Rows, ReachFault>
    requires long { length coefs.now ≡ system.now.vars }
    requires few { system.now.vars < 64 }
    ensures value { Meets (value_rows system.now (form_of coefs.now constant)) (λ out. out.rows) result }
    ensures vars { IfOk result (λ out. out.vars ≡ system.now.vars + 1) }
{
    let vars = system.vars();
    let both = with_value(alloc, system, coefs, constant)?;
    let rows = tidy(alloc, vars + 1, &both)?;
    let others = numbers_to(alloc, vars)?;
    step_each(alloc, rows, &others)
}
