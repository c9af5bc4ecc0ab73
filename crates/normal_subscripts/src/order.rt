// The dimensions of expressions in the order in which they appear.
ghost use Rattle.std.specs.Prelude.{◌≡◌, ◌++◌, ◌∷◌, [], ◌≤◌, length, OnOk, IfOk, flat_map, if◌then◌else◌};
ghost use Rattle.placement_texts.specs.Normal.{dims_of, has, firsts, index_of};

use affine_expr::Expr;
use sqlite_items::Items;
use std::alloc::{AllocError, Global};

/// The number of a dimension in an order, and how many there are where it isn't there.
#[tactic(auto, using(crate::proofs::Orders::index_here, crate::proofs::Orders::index_next, crate::proofs::Orders::index_end))]
pub(crate) fn index_of(number: u32, order: &[u32]) -> usize
    ensures index { result ≡ index_of number order.now }
    ensures within { result ≤ length order.now }
{
    for (at, other) in order.iter().enumerate() {
        if *other == number {
            return at;
        }
    }
    order.len()
}

/// Adds a dimension that isn't there yet.
#[tactic(auto, using(crate::proofs::Orders::has_not, crate::proofs::Orders::has_one))]
fn add_dim(number: u32, seen: &mut Items<u32>) -> Result<(), AllocError>
    ensures { OnOk result (seen.new ≡ (if has number seen.old then seen.old else seen.old ++ number ∷ [])) }
{
    if index_of(number, seen.as_slice()) == seen.len() {
        seen.push(number)?;
    }
    Ok(())
}

/// Adds the dimensions of an expression, as they appear, that aren't there yet.
#[tactic(auto, using(crate::proofs::Orders::dims))]
fn add_dims(expr: &Expr, seen: &mut Items<u32>) -> Result<(), AllocError>
    ensures { OnOk result (seen.new ≡ firsts seen.old (dims_of expr.now)) }
{
    match expr {
        Expr::Dim(number) => add_dim(*number, seen),
        Expr::Sym(_) => Ok(()),
        Expr::Const(_) => Ok(()),
        Expr::Neg(part) => add_dims(part.get(), seen),
        Expr::Add(left, right) => {
            add_dims(left.get(), seen)?;
            add_dims(right.get(), seen)
        }
        Expr::Sub(left, right) => {
            add_dims(left.get(), seen)?;
            add_dims(right.get(), seen)
        }
        Expr::Mul(left, right) => {
            add_dims(left.get(), seen)?;
            add_dims(right.get(), seen)
        }
        Expr::FloorDiv(left, right) => {
            add_dims(left.get(), seen)?;
            add_dims(right.get(), seen)
        }
        Expr::CeilDiv(left, right) => {
            add_dims(left.get(), seen)?;
            add_dims(right.get(), seen)
        }
        Expr::Mod(left, right) => {
            add_dims(left.get(), seen)?;
            add_dims(right.get(), seen)
        }
    }
}

/// The dimensions of the expressions of a list, by first appearance.
#[tactic(auto, using(crate::proofs::Orders::order_next, crate::proofs::Orders::order_end))]
pub(crate) fn order_of(alloc: Global, exprs: &[Expr]) -> Result<Items<u32>, AllocError>
    ensures { IfOk result (λ order. order ≡ firsts [] (flat_map dims_of exprs.now)) }
{
    let mut order = Items::new(alloc);
    for expr in exprs {
        add_dims(expr, &mut order)?;
    }
    Ok(order)
}
