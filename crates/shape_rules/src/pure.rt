// Whether maps, sets and bounds are affine.
ghost use Rattle.std.specs.Prelude.{◌≡◌, IfOk};
ghost use Rattle.affine_expr.specs.Pure.{is_pure};
ghost use Rattle.affine_ast.specs.Rules.{access_pure, row_pure, set_pure, bound_pure};

use crate::purity::{Found, purity};
use affine_ast::{Access, Bound};
use affine_expr::{Constraint, Expr, Set};
use std::alloc::{AllocError, Global};

/// Whether an expression is affine.
#[tactic(auto, unfolding(affine_expr::specs::Pure::is_pure))]
fn is_pure(alloc: Global, expr: &Expr) -> Result<bool, AllocError>
    ensures { IfOk result (λ pure. pure ≡ is_pure expr.now) }
{
    match purity(alloc, expr)? {
        Found::Impure => Ok(false),
        Found::Varies => Ok(true),
        Found::Fixed(_) => Ok(true),
    }
}

#[tactic(auto, unfolding(affine_ast::specs::Rules::access_pure))]
pub fn access_pure(alloc: Global, at: &Access) -> Result<bool, AllocError>
    ensures { IfOk result (λ pure. pure ≡ access_pure at.now) }
{
    for expr in at.map.results.as_slice() {
        if !is_pure(alloc, expr)? {
            return Ok(false);
        }
    }
    Ok(true)
}

fn row_pure(alloc: Global, row: &Constraint) -> Result<bool, AllocError>
    ensures { IfOk result (λ pure. pure ≡ row_pure row.now) }
{
    if is_pure(alloc, &row.left)? {
        is_pure(alloc, &row.right)
    } else {
        Ok(false)
    }
}

#[tactic(auto, unfolding(affine_ast::specs::Rules::set_pure))]
pub fn set_pure(alloc: Global, set: &Set) -> Result<bool, AllocError>
    ensures { IfOk result (λ pure. pure ≡ set_pure set.now) }
{
    for row in set.rows.as_slice() {
        if !row_pure(alloc, row)? {
            return Ok(false);
        }
    }
    Ok(true)
}

pub fn bound_pure(alloc: Global, bound: &Bound) -> Result<bool, AllocError>
    ensures { IfOk result (λ pure. pure ≡ bound_pure bound.now) }
{
    match bound {
        Bound::Int(_) => Ok(true),
        Bound::Value(_) => Ok(true),
        Bound::Map(at) => access_pure(alloc, at),
    }
}
