//! The rows of a side: those in which a variable has a positive, a negative or no coefficient.

ghost use Rattle.std.specs.Prelude.{◌≡◌, ◌<◌, [], ◌∷◌, ◌++◌, length, IfOk, OnOk};
ghost use Rattle.constraint_set.specs.Points.{AreWide};
ghost use Rattle.projection.specs.Sides.{is_on, on_side};

use constraint_set::{Row, Rows};
use std::alloc::{AllocError, Global};

/// Where a row stands by the coefficient of a variable.
#[derive(Clone, Copy)]
pub(crate) enum Side {
    Raising,
    Lowering,
    Without,
}

/// Whether a coefficient puts its row on a side.
fn stands_on(side: Side, coef: i128) -> bool
    ensures { result ≡ is_on side coef }
{
    match side {
        Side::Raising => 0 < coef,
        Side::Lowering => coef < 0,
        Side::Without => coef == 0,
    }
}

/// Appends a copy of a row, if it is on a side of variable k.
fn push_on(
    alloc: Global,
    side: Side,
    k: usize,
    coefs: &[i128],
    constant: i128,
    out: &mut Vec<Row>,
) -> Result<(), AllocError>
    requires { k < length coefs.now }
    ensures { OnOk result (out.new.items ≡ out.old.items ++ on_side side k (record { coefs = coefs.now; constant = constant } ∷ [])) }
{
    if !stands_on(side, coefs[k]) {
        return Ok(());
    }
    let coefs = Vec::from_slice(alloc, coefs)?;
    out.push(Row { coefs, constant })?;
    Ok(())
}

/// Copies of the rows on a side of variable k, in order.
pub(crate) fn rows_on(
    alloc: Global,
    side: Side,
    k: usize,
    rows: &Rows,
) -> Result<Vec<Row>, AllocError>
    requires { k < rows.now.vars }
    ensures rows { IfOk result (λ out. out.items ≡ on_side side k rows.now.rows) }
    ensures wide { AreWide rows.now.vars rows.now.rows }
{
    let mut out = Vec::new(alloc);
    for at in 0..rows.count() {
        let (coefs, constant) = rows.row(at);
        push_on(alloc, side, k, coefs, constant, &mut out)?;
    }
    Ok(out)
}
