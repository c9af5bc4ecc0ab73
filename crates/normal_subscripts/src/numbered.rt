// Expressions with their dimensions numbered otherwise.
ghost use Rattle.std.specs.Prelude.{◌≡◌, ◌<◌, ◌^◌, length, IfOk};
ghost use Rattle.placement_texts.specs.Normal.{index_of, renumbered};

use crate::order::index_of;
use affine_expr::Expr;
use sqlite_items::Boxed;
use std::alloc::{AllocError, Global};

/// A part of an expression.
#[cycle(numbers)]
fn part(alloc: Global, expr: &Boxed<Expr>, order: &[u32]) -> Result<Boxed<Expr>, AllocError>
    requires { length order.now < 2 ^ 32 }
    ensures { IfOk result (λ made. made ≡ renumbered (λ n. index_of n order.now) expr.now) }
{
    Boxed::new(alloc, renumbered(alloc, expr.get(), order)?)
}

/// An expression with its dimensions numbered by an order.
#[cycle(numbers)]
#[tactic(auto, using(crate::proofs::Renumbering::numbers))]
pub(crate) fn renumbered(alloc: Global, expr: &Expr, order: &[u32]) -> Result<Expr, AllocError>
    requires { length order.now < 2 ^ 32 }
    ensures { IfOk result (λ made. made ≡ renumbered (λ n. index_of n order.now) expr.now) }
{
    match expr {
        Expr::Dim(number) => Ok(Expr::Dim(index_of(*number, order) as u32)),
        Expr::Sym(number) => Ok(Expr::Sym(*number)),
        Expr::Const(value) => Ok(Expr::Const(*value)),
        Expr::Neg(inner) => Ok(Expr::Neg(part(alloc, inner, order)?)),
        Expr::Add(left, right) => {
            let right = part(alloc, right, order)?;
            Ok(Expr::Add(part(alloc, left, order)?, right))
        }
        Expr::Sub(left, right) => {
            let right = part(alloc, right, order)?;
            Ok(Expr::Sub(part(alloc, left, order)?, right))
        }
        Expr::Mul(left, right) => {
            let right = part(alloc, right, order)?;
            Ok(Expr::Mul(part(alloc, left, order)?, right))
        }
        Expr::FloorDiv(left, right) => {
            let right = part(alloc, right, order)?;
            Ok(Expr::FloorDiv(part(alloc, left, order)?, right))
        }
        Expr::CeilDiv(left, right) => {
            let right = part(alloc, right, order)?;
            Ok(Expr::CeilDiv(part(alloc, left, order)?, right))
        }
        Expr::Mod(left, right) => {
            let right = part(alloc, right, order)?;
            Ok(Expr::Mod(part(alloc, left, order)?, right))
        }
    }
}
