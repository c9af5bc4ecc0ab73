// Sums of expressions, folded.
ghost use Rattle.std.specs.Prelude.{◌≡◌, ◌+ℤ◌, ◌-ℤ◌, IfOk};
ghost use Rattle.affine_expr.specs.declared.expr.Expr.{Add, Sub};
ghost use Rattle.loop_forms.specs.Sums.{number_of, sum_of, difference_of};

use crate::numbers::narrow;
use affine_expr::Expr;
use sqlite_items::Boxed;
use std::alloc::{AllocError, Global};

/// The number that an expression is, where it is one integer.
#[tactic(auto, unfolding(crate::specs::Sums::number_of))]
fn number_of(expr: &Expr) -> Option<i64>
    ensures { result ≡ number_of expr.now }
{
    match expr {
        Expr::Const(value) => Some(*value),
        _ => None,
    }
}

fn added(alloc: Global, left: Expr, right: Expr) -> Result<Expr, AllocError>
    ensures { IfOk result (λ sum. sum ≡ Add left right) }
{
    let left = Boxed::new(alloc, left)?;
    Ok(Expr::Add(left, Boxed::new(alloc, right)?))
}

fn taken(alloc: Global, left: Expr, right: Expr) -> Result<Expr, AllocError>
    ensures { IfOk result (λ difference. difference ≡ Sub left right) }
{
    let left = Boxed::new(alloc, left)?;
    Ok(Expr::Sub(left, Boxed::new(alloc, right)?))
}

fn sum_of_numbers(left: i64, right: i64) -> Result<i64, AllocError>
    ensures { IfOk result (λ sum. sum ≡ left +ℤ right) }
{
    narrow(left as i128 + right as i128)
}

fn difference_of_numbers(left: i64, right: i64) -> Result<i64, AllocError>
    ensures { IfOk result (λ difference. difference ≡ left -ℤ right) }
{
    narrow(left as i128 - right as i128)
}

/// `left + right`.
pub(crate) fn sum(alloc: Global, left: Expr, right: Expr) -> Result<Expr, AllocError>
    ensures { IfOk result (λ sum. sum ≡ sum_of left right) }
{
    match number_of(&left) {
        Some(first) => match number_of(&right) {
            Some(second) => Ok(Expr::Const(sum_of_numbers(first, second)?)),
            None if first == 0 => Ok(right),
            None => added(alloc, left, right),
        },
        None => match number_of(&right) {
            Some(0) => Ok(left),
            Some(second) if second < 0 => {
                taken(alloc, left, Expr::Const(difference_of_numbers(0, second)?))
            }
            _ => added(alloc, left, right),
        },
    }
}

/// `left - right`.
pub(crate) fn difference(alloc: Global, left: Expr, right: Expr) -> Result<Expr, AllocError>
    ensures { IfOk result (λ difference. difference ≡ difference_of left right) }
{
    match number_of(&right) {
        Some(second) => match number_of(&left) {
            Some(first) => Ok(Expr::Const(difference_of_numbers(first, second)?)),
            None if second == 0 => Ok(left),
            None => taken(alloc, left, right),
        },
        None => taken(alloc, left, right),
    }
}
