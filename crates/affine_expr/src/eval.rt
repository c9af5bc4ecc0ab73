// The value of an expression, and where a set holds.
ghost use Rattle.std.specs.Prelude.{◌≡◌, ◌+ℤ◌, ◌-ℤ◌, ◌*ℤ◌, ◌<◌, neg_ℤ, pos, length, slice_index_or, IsSome};
ghost use Rattle.affine_expr.specs.Bounded.{Evaluable, AllEvaluable};
ghost use Rattle.affine_expr.specs.Guarded.{small_one, small_two, divided, guarded};
ghost use Rattle.affine_expr.specs.Truth.{compares, holds};
ghost use Rattle.affine_expr.specs.Value.{value, floor_div, ceil_div, floor_mod};

use crate::{Constraint, Expr, Rel, Set};
use num_row::{ceil_div, floor_div};

fn leaf(values: &[i64], number: u32) -> i128
    requires { number < length values.now }
    ensures { result ≡ slice_index_or values.now number (pos 0) }
{
    values[number as usize] as i128
}

#[tactic(auto, unfolding(crate::specs::Guarded::small_one, crate::specs::Guarded::small))]
fn minus(value: i128) -> i128
    requires { IsSome (small_one neg_ℤ value) }
    ensures { small_one neg_ℤ value ≡ Some result }
{
    -value
}

#[tactic(auto, unfolding(crate::specs::Guarded::small_two, crate::specs::Guarded::small))]
fn sum(left: i128, right: i128) -> i128
    requires { IsSome (small_two (λ u v. u +ℤ v) left right) }
    ensures { small_two (λ u v. u +ℤ v) left right ≡ Some result }
{
    left + right
}

#[tactic(auto, unfolding(crate::specs::Guarded::small_two, crate::specs::Guarded::small))]
fn difference(left: i128, right: i128) -> i128
    requires { IsSome (small_two (λ u v. u -ℤ v) left right) }
    ensures { small_two (λ u v. u -ℤ v) left right ≡ Some result }
{
    left - right
}

#[tactic(auto, unfolding(crate::specs::Guarded::small_two, crate::specs::Guarded::small))]
fn product(left: i128, right: i128) -> i128
    requires { IsSome (small_two (λ u v. u *ℤ v) left right) }
    ensures { small_two (λ u v. u *ℤ v) left right ≡ Some result }
{
    left * right
}

#[tactic(auto, using(crate::proofs::Guards::divisor_positive, crate::proofs::Guards::divided_floor))]
fn floor(left: i128, right: i128) -> i128
    requires { IsSome (divided floor_div left right) }
    ensures { divided floor_div left right ≡ Some result }
{
    floor_div(left, right)
}

#[tactic(auto, using(crate::proofs::Guards::divisor_positive, crate::proofs::Guards::divided_ceil))]
fn ceiling(left: i128, right: i128) -> i128
    requires { IsSome (divided ceil_div left right) }
    ensures { divided ceil_div left right ≡ Some result }
{
    ceil_div(left, right)
}

#[tactic(auto, using(crate::proofs::Guards::divisor_positive, crate::proofs::Guards::divided_mod))]
fn rest(left: i128, right: i128) -> i128
    requires { IsSome (divided floor_mod left right) }
    ensures { divided floor_mod left right ≡ Some result }
{
    left.rem_euclid(right)
}

impl Expr {
    fn value(&self, dims: &[i64], syms: &[i64]) -> i128
        requires { IsSome (guarded dims.now syms.now self.now) }
        ensures { guarded dims.now syms.now self.now ≡ Some result }
    {
        match self {
            Expr::Dim(number) => leaf(dims, *number),
            Expr::Sym(number) => leaf(syms, *number),
            Expr::Const(value) => *value as i128,
            Expr::Neg(part) => minus(part.get().value(dims, syms)),
            Expr::Add(left, right) => {
                let left = left.get().value(dims, syms);
                sum(left, right.get().value(dims, syms))
            }
            Expr::Sub(left, right) => {
                let left = left.get().value(dims, syms);
                difference(left, right.get().value(dims, syms))
            }
            Expr::Mul(left, right) => {
                let left = left.get().value(dims, syms);
                product(left, right.get().value(dims, syms))
            }
            Expr::FloorDiv(left, right) => {
                let left = left.get().value(dims, syms);
                floor(left, right.get().value(dims, syms))
            }
            Expr::CeilDiv(left, right) => {
                let left = left.get().value(dims, syms);
                ceiling(left, right.get().value(dims, syms))
            }
            Expr::Mod(left, right) => {
                let left = left.get().value(dims, syms);
                rest(left, right.get().value(dims, syms))
            }
        }
    }

    /// The value of the expression where its dimensions and symbols have these values.
    ///
    /// No number on the way leaves 128 bits, since each part's value lies in an interval within -2^62 to 2^62.
    #[tactic(auto, using(crate::proofs::Soundness::evaluated_some, crate::proofs::Soundness::value_found))]
    pub fn eval(&self, dims: &[i64], syms: &[i64]) -> i128
        requires { Evaluable dims.now syms.now self.now }
        ensures { result ≡ value dims.now syms.now self.now }
    {
        self.value(dims, syms)
    }
}

impl Constraint {
    fn holds(&self, dims: &[i64], syms: &[i64]) -> bool
        requires left { Evaluable dims.now syms.now self.now.left }
        requires right { Evaluable dims.now syms.now self.now.right }
        ensures { result ≡ compares self.now.rel (value dims.now syms.now self.now.left) (value dims.now syms.now self.now.right) }
    {
        let left = self.left.eval(dims, syms);
        let right = self.right.eval(dims, syms);
        match self.rel {
            Rel::Ge => left >= right,
            Rel::Le => left <= right,
            Rel::Eq => left == right,
        }
    }
}

impl Set {
    /// Whether all constraints of the set hold where its dimensions and symbols have these values.
    #[tactic(auto, unfolding(crate::specs::Truth::holds), using(crate::proofs::Rows::rows_drop, crate::proofs::Rows::hold_drop))]
    pub fn holds(&self, dims: &[i64], syms: &[i64]) -> bool
        requires { AllEvaluable dims.now syms.now self.now.rows }
        ensures { result ≡ holds dims.now syms.now self.now }
    {
        for row in self.rows.as_slice() {
            if !row.holds(dims, syms) {
                return false;
            }
        }
        true
    }
}
