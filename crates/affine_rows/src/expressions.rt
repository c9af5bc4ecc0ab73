// Values, intervals and linear forms of affine expressions.
ghost use Rattle.std.specs.Prelude.{◌≡◌, [], ◌∷◌, IfOk, IfSome, IsTrue, pos, true};
ghost use Rattle.affine_expr.specs.Bounded.{Evaluable};
ghost use Rattle.affine_expr.specs.Pure.{is_pure, has_leaves_below};
ghost use Rattle.affine_expr.specs.Value.{value};
ghost use Rattle.affine_expr.specs.declared.expr.Expr.TheVariants as e;

use affine_expr::{Constraint, Expr, Interval, LinearFault, Rel, Set};
use sqlite_items::{Boxed, Items};
use std::alloc::{AllocError, Global};
use std::test::Fail;

/// `(d0 - 7) mod 4`
fn less_seven_mod_four(alloc: Global) -> Result<Expr, AllocError>
    ensures { IfOk result (λ x. x ≡ e.Mod (e.Sub (e.Dim 0) (e.Const (pos 7))) (e.Const (pos 4))) }
{
    let difference = Expr::Sub(
        Boxed::new(alloc, Expr::Dim(0))?,
        Boxed::new(alloc, Expr::Const(7))?,
    );
    Ok(Expr::Mod(
        Boxed::new(alloc, difference)?,
        Boxed::new(alloc, Expr::Const(4))?,
    ))
}

/// `d0 ceildiv 3`
fn thirds(alloc: Global) -> Result<Expr, AllocError>
    ensures { IfOk result (λ x. x ≡ e.CeilDiv (e.Dim 0) (e.Const (pos 3))) }
{
    Ok(Expr::CeilDiv(
        Boxed::new(alloc, Expr::Dim(0))?,
        Boxed::new(alloc, Expr::Const(3))?,
    ))
}

/// `((d0 * 4611686018427387904) * 4611686018427387904) * 8`
fn past_128_bits(alloc: Global) -> Result<Expr, AllocError>
    ensures { IfOk result (λ x. x ≡ e.Mul (e.Mul (e.Mul (e.Dim 0) (e.Const (pos 4611686018427387904))) (e.Const (pos 4611686018427387904))) (e.Const (pos 8))) }
{
    let once = Expr::Mul(
        Boxed::new(alloc, Expr::Dim(0))?,
        Boxed::new(alloc, Expr::Const(4611686018427387904))?,
    );
    let twice = Expr::Mul(
        Boxed::new(alloc, once)?,
        Boxed::new(alloc, Expr::Const(4611686018427387904))?,
    );
    Ok(Expr::Mul(
        Boxed::new(alloc, twice)?,
        Boxed::new(alloc, Expr::Const(8))?,
    ))
}

const WIDE: Interval = Interval {
    least: -5,
    greatest: 9,
};

#[test]
#[tactic(auto, unfolding(affine_expr::specs::Pure::is_pure, affine_expr::specs::Pure::has_leaves_below))]
fn intervals_of_expressions(rt: HostRuntime) -> Result<(), Fail> {
    let remainder = less_seven_mod_four(rt.alloc())?;
    assert!(rt;
        matches!(
            remainder.interval(&[WIDE], &[]),
            Some(Interval {
                least: 0,
                greatest: 3
            })
        )
    );
    let quotient = thirds(rt.alloc())?;
    assert!(rt;
        matches!(
            quotient.interval(&[WIDE], &[]),
            Some(Interval {
                least: -1,
                greatest: 3
            })
        )
    );
    let edge = Expr::Const(4611686018427387904);
    assert!(rt; edge.interval(&[], &[]).is_some());
    let past = Expr::Const(4611686018427387905);
    assert!(rt; past.interval(&[], &[]).is_none());
    Ok(())
}

#[test]
#[tactic(auto, unfolding(affine_expr::specs::Pure::is_pure, affine_expr::specs::Pure::has_leaves_below, affine_expr::specs::Pure::has_small_numbers))]
fn linear_forms_of_expressions(rt: HostRuntime) -> Result<(), Fail> {
    let alloc = rt.alloc();
    let remainder = less_seven_mod_four(alloc)?;
    let Ok(form) = remainder.linear(alloc, 1, 0) else {
        panic!(rt; "no form");
    };
    assert!(rt; form.coefs.as_slice() == [1, -4].as_slice() && form.constant == -7);
    let [local] = form.locals.as_slice() else {
        panic!(rt; "one local");
    };
    assert!(rt;
        local.coefs.as_slice() == [1].as_slice() && local.constant == -7 && local.divisor == 4
    );
    let quotient = thirds(alloc)?;
    let Ok(form) = quotient.linear(alloc, 1, 0) else {
        panic!(rt; "no form");
    };
    let [local] = form.locals.as_slice() else {
        panic!(rt; "one local");
    };
    assert!(rt;
        local.coefs.as_slice() == [1].as_slice() && local.constant == 2 && local.divisor == 3
    );
    let wide = past_128_bits(alloc)?;
    assert!(rt; matches!(wide.linear(alloc, 1, 0), Err(LinearFault::Wide)));
    Ok(())
}

/// Whether the only dimension may be this number: it lies in the interval, and each part keeps within its limits there.
fn is_reached(expr: &Expr, at: i64) -> bool
    requires pure { is_pure expr.now ≡ true }
    requires leaves { has_leaves_below 1 0 expr.now ≡ true }
    ensures { IsTrue result → Evaluable (at ∷ []) [] expr.now }
{
    at >= WIDE.least && at <= WIDE.greatest && expr.interval(&[WIDE], &[]).is_some()
}

/// The value where the only dimension is this number.
fn value_at(expr: &Expr, at: i64) -> Option<i128>
    requires pure { is_pure expr.now ≡ true }
    requires leaves { has_leaves_below 1 0 expr.now ≡ true }
    ensures { IfSome result (λ z. z ≡ value (at ∷ []) [] expr.now) }
{
    if !is_reached(expr, at) {
        return None;
    }
    Some(expr.eval(&[at], &[]))
}

#[test]
#[tactic(auto, unfolding(affine_expr::specs::Pure::is_pure, affine_expr::specs::Pure::has_leaves_below))]
fn values_of_expressions(rt: HostRuntime) -> Result<(), Fail> {
    let alloc = rt.alloc();
    let remainder = less_seven_mod_four(alloc)?;
    for (at, value) in [(0, 1), (7, 0), (9, 2), (-5, 0)] {
        assert!(rt; matches!(value_at(&remainder, at), Some(found) if found == value));
    }
    let quotient = thirds(alloc)?;
    for (at, value) in [(-4, -1), (4, 2), (3, 1), (0, 0)] {
        assert!(rt; matches!(value_at(&quotient, at), Some(found) if found == value));
    }
    Ok(())
}

/// Whether the only dimension compares so with 2 where it is this number.
#[tactic(auto, unfolding(affine_expr::specs::Pure::is_pure, affine_expr::specs::Pure::has_leaves_below))]
fn compares_with_two(alloc: Global, rel: Rel, at: i64) -> Result<Option<bool>, AllocError> {
    let left = Expr::Dim(0);
    let right = Expr::Const(2);
    if !is_reached(&left, at) || !is_reached(&right, at) {
        return Ok(None);
    }
    let mut rows = Items::new(alloc);
    rows.push(Constraint { left, rel, right })?;
    let set = Set {
        dims: 1,
        syms: 0,
        rows,
    };
    Ok(Some(set.holds(&[at], &[])))
}

#[test]
fn constraints_hold_or_not(rt: HostRuntime) -> Result<(), Fail> {
    let alloc = rt.alloc();
    for (at, least, equal, most) in [
        (1, false, false, true),
        (2, true, true, true),
        (3, true, false, false),
    ] {
        assert!(rt; compares_with_two(alloc, Rel::Ge, at)? == Some(least));
        assert!(rt; compares_with_two(alloc, Rel::Eq, at)? == Some(equal));
        assert!(rt; compares_with_two(alloc, Rel::Le, at)? == Some(most));
    }
    Ok(())
}
