// Sums, folded.
ghost use Rattle.std.specs.Prelude.{◌≡◌, IfOk};
ghost use Rattle.affine_expr.specs.declared.expr.Expr.{Add, Sub};
ghost use Rattle.placement_texts.specs.Template.{plus, term, first_term, join_term};
ghost use Rattle.valid_laws.specs.Safe.{IsSmall};

use affine_expr::Expr;
use sqlite_items::Boxed;
use std::alloc::{AllocError, Global};

pub(crate) fn added(alloc: Global, left: Expr, right: Expr) -> Result<Expr, AllocError>
    ensures { IfOk result (λ sum. sum ≡ Add left right) }
{
    let right = Boxed::new(alloc, right)?;
    Ok(Expr::Add(Boxed::new(alloc, left)?, right))
}

pub(crate) fn taken(alloc: Global, left: Expr, right: Expr) -> Result<Expr, AllocError>
    ensures { IfOk result (λ difference. difference ≡ Sub left right) }
{
    let right = Boxed::new(alloc, right)?;
    Ok(Expr::Sub(Boxed::new(alloc, left)?, right))
}

/// `expr + number`.
pub(crate) fn with_number(alloc: Global, expr: Expr, number: i64) -> Result<Expr, AllocError>
    requires { IsSmall number }
    ensures { IfOk result (λ sum. sum ≡ plus expr number) }
{
    if number == 0 {
        Ok(expr)
    } else if number < 0 {
        taken(alloc, expr, Expr::Const(-number))
    } else {
        added(alloc, expr, Expr::Const(number))
    }
}

/// A dimension times a factor.
fn term(alloc: Global, dim: u32, factor: i64) -> Result<Expr, AllocError>
    ensures { IfOk result (λ product. product ≡ term dim factor) }
{
    if factor == 1 {
        return Ok(Expr::Dim(dim));
    }
    let right = Boxed::new(alloc, Expr::Const(factor))?;
    Ok(Expr::Mul(Boxed::new(alloc, Expr::Dim(dim))?, right))
}

pub(crate) fn first_term(alloc: Global, factor: i64) -> Result<Expr, AllocError>
    ensures { IfOk result (λ product. product ≡ first_term 0 factor) }
{
    if factor == -1 {
        return Ok(Expr::Neg(Boxed::new(alloc, Expr::Dim(0))?));
    }
    term(alloc, 0, factor)
}

/// A sum with one term more.
pub(crate) fn joined(alloc: Global, sum: Expr, dim: u32, factor: i64) -> Result<Expr, AllocError>
    requires { IsSmall factor }
    ensures { IfOk result (λ more. more ≡ join_term sum dim factor) }
{
    if factor < 0 {
        taken(alloc, sum, term(alloc, dim, -factor)?)
    } else {
        added(alloc, sum, term(alloc, dim, factor)?)
    }
}
