// The value of an expression that has no dimension and no symbol.
ghost use Rattle.std.specs.Prelude.{◌≡◌, ◌+ℤ◌, ◌-ℤ◌, ◌*ℤ◌, neg_ℤ};
ghost use Rattle.affine_expr.specs.Linear.{known_one, known_two, divisor, known_value};
ghost use Rattle.affine_expr.specs.Value.{floor_div, ceil_div, floor_mod};

use crate::Expr;
use crate::interval::{ceiling, difference, floor, minus, product, rest, small, sum};

fn known_minus(value: Option<i64>) -> Option<i64>
    ensures { result ≡ known_one neg_ℤ value }
{
    small(minus(value?))
}

fn known_sum(left: Option<i64>, right: Option<i64>) -> Option<i64>
    ensures { result ≡ known_two (λ x y. x +ℤ y) left right }
{
    small(sum(left?, right?))
}

fn known_difference(left: Option<i64>, right: Option<i64>) -> Option<i64>
    ensures { result ≡ known_two (λ x y. x -ℤ y) left right }
{
    small(difference(left?, right?))
}

fn known_product(left: Option<i64>, right: Option<i64>) -> Option<i64>
    ensures { result ≡ known_two (λ x y. x *ℤ y) left right }
{
    small(product(left?, right?))
}

/// A divisor that is known and positive.
pub(crate) fn positive(value: Option<i64>) -> Option<i64>
    ensures { result ≡ divisor value }
{
    let value = value?;
    if 0 < value { Some(value) } else { None }
}

fn known_floor(left: Option<i64>, right: Option<i64>) -> Option<i64>
    ensures { result ≡ known_two floor_div left (divisor right) }
{
    let left = left?;
    let right = right?;
    if 0 < right {
        small(floor(left, right))
    } else {
        None
    }
}

fn known_ceiling(left: Option<i64>, right: Option<i64>) -> Option<i64>
    ensures { result ≡ known_two ceil_div left (divisor right) }
{
    let left = left?;
    let right = right?;
    if 0 < right {
        small(ceiling(left, right))
    } else {
        None
    }
}

fn known_rest(left: Option<i64>, right: Option<i64>) -> Option<i64>
    ensures { result ≡ known_two floor_mod left (divisor right) }
{
    let left = left?;
    let right = right?;
    if 0 < right {
        small(rest(left, right))
    } else {
        None
    }
}

impl Expr {
    pub(crate) fn known(&self) -> Option<i64>
        ensures { result ≡ known_value self.now }
    {
        match self {
            Expr::Dim(_) => None,
            Expr::Sym(_) => None,
            Expr::Const(value) => small(*value as i128),
            Expr::Neg(part) => known_minus(part.get().known()),
            Expr::Add(left, right) => known_sum(left.get().known(), right.get().known()),
            Expr::Sub(left, right) => known_difference(left.get().known(), right.get().known()),
            Expr::Mul(left, right) => known_product(left.get().known(), right.get().known()),
            Expr::FloorDiv(left, right) => known_floor(left.get().known(), right.get().known()),
            Expr::CeilDiv(left, right) => known_ceiling(left.get().known(), right.get().known()),
            Expr::Mod(left, right) => known_rest(left.get().known(), right.get().known()),
        }
    }
}
