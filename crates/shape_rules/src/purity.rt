// Products and divisions by what has neither dimension nor symbol.
ghost use Rattle.std.specs.Prelude.{◌≡◌, ◌+ℤ◌, ◌-ℤ◌, ◌*ℤ◌, neg_ℤ, pos, ◌<ℤ◌, Some, None, IfOk, true, false};
ghost use Rattle.affine_expr.specs.Pure.{Purity, purity_step, purity};
ghost use Rattle.affine_expr.specs.Value.{floor_div, ceil_div, floor_mod};
ghost use Rattle.affine_expr.specs.declared.expr.Expr.TheOpen.{Expr-F};
ghost use Rattle.shape_rules.specs.Purities.{Finds};

use affine_expr::Expr;
use big_integer::Integer;
use std::alloc::{AllocError, Global};

/// Whether an expression is affine, and its value where it has neither dimension nor symbol.
#[derive(Drop)]
pub enum Found {
    /// Some product or division stands on what it may not.
    Impure,
    /// It has a dimension or a symbol.
    Varies,
    /// It has neither, and this value.
    Fixed(Integer),
}

/// The other sign.
fn negated(alloc: Global, part: Found) -> Result<Found, AllocError>
    ensures { (a : Purity) → Finds part a → IfOk result (λ found. Finds found (purity_step (Expr-F.Neg a))) }
{
    match part {
        Found::Impure => Ok(Found::Impure),
        Found::Varies => Ok(Found::Varies),
        Found::Fixed(value) => {
            let negated = value.negated(alloc)?;
            Ok(Found::Fixed(negated))
        }
    }
}

/// A sum.
fn sum(alloc: Global, left: Found, right: Found) -> Result<Found, AllocError>
    ensures { (a b : Purity) → Finds left a → Finds right b → IfOk result (λ found. Finds found (purity_step (Expr-F.Add a b))) }
{
    match left {
        Found::Impure => Ok(Found::Impure),
        Found::Varies => match right {
            Found::Impure => Ok(Found::Impure),
            Found::Varies => Ok(Found::Varies),
            Found::Fixed(_) => Ok(Found::Varies),
        },
        Found::Fixed(first) => match right {
            Found::Impure => Ok(Found::Impure),
            Found::Varies => Ok(Found::Varies),
            Found::Fixed(second) => {
                let sum = first.sum(alloc, &second)?;
                Ok(Found::Fixed(sum))
            }
        },
    }
}

/// A difference.
fn difference(alloc: Global, left: Found, right: Found) -> Result<Found, AllocError>
    ensures { (a b : Purity) → Finds left a → Finds right b → IfOk result (λ found. Finds found (purity_step (Expr-F.Sub a b))) }
{
    match left {
        Found::Impure => Ok(Found::Impure),
        Found::Varies => match right {
            Found::Impure => Ok(Found::Impure),
            Found::Varies => Ok(Found::Varies),
            Found::Fixed(_) => Ok(Found::Varies),
        },
        Found::Fixed(first) => match right {
            Found::Impure => Ok(Found::Impure),
            Found::Varies => Ok(Found::Varies),
            Found::Fixed(second) => {
                let difference = first.difference(alloc, &second)?;
                Ok(Found::Fixed(difference))
            }
        },
    }
}

/// A product: one side has neither dimension nor symbol.
fn product(alloc: Global, left: Found, right: Found) -> Result<Found, AllocError>
    ensures { (a b : Purity) → Finds left a → Finds right b → IfOk result (λ found. Finds found (purity_step (Expr-F.Mul a b))) }
{
    match left {
        Found::Impure => Ok(Found::Impure),
        Found::Varies => match right {
            Found::Impure => Ok(Found::Impure),
            Found::Varies => Ok(Found::Impure),
            Found::Fixed(_) => Ok(Found::Varies),
        },
        Found::Fixed(first) => match right {
            Found::Impure => Ok(Found::Impure),
            Found::Varies => Ok(Found::Varies),
            Found::Fixed(second) => {
                let product = first.product(alloc, &second)?;
                Ok(Found::Fixed(product))
            }
        },
    }
}

#[tactic(auto, using(affine_expr::proofs::Divisions::floor_is))]
fn floor(alloc: Global, left: &Integer, right: &Integer) -> Result<Integer, AllocError>
    requires { pos 0 <ℤ right.now }
    ensures { IfOk result (λ quotient. quotient ≡ floor_div left.now right.now) }
{
    let quotient = left.floor_quotient(alloc, right)?;
    Ok(quotient)
}

/// A division by a number.
fn floored_by(alloc: Global, left: Found, divisor: &Integer) -> Result<Found, AllocError>
    requires { pos 0 <ℤ divisor.now }
    ensures { (a b : Purity) → Finds left a → b.pure ≡ true → b.fixed ≡ Some divisor.now → IfOk result (λ found. Finds found (purity_step (Expr-F.FloorDiv a b))) }
{
    match left {
        Found::Impure => Ok(Found::Impure),
        Found::Varies => Ok(Found::Varies),
        Found::Fixed(value) => {
            let quotient = floor(alloc, &value, divisor)?;
            Ok(Found::Fixed(quotient))
        }
    }
}

/// A division: the right side has neither dimension nor symbol, and is positive.
fn floored(alloc: Global, left: Found, right: Found) -> Result<Found, AllocError>
    ensures { (a b : Purity) → Finds left a → Finds right b → IfOk result (λ found. Finds found (purity_step (Expr-F.FloorDiv a b))) }
{
    match right {
        Found::Impure => Ok(Found::Impure),
        Found::Varies => Ok(Found::Impure),
        Found::Fixed(divisor) => {
            if divisor.is_positive() {
                floored_by(alloc, left, &divisor)
            } else {
                Ok(Found::Impure)
            }
        }
    }
}

#[tactic(auto, using(affine_expr::proofs::Divisions::ceil_is))]
fn ceiling(alloc: Global, left: &Integer, right: &Integer) -> Result<Integer, AllocError>
    requires { pos 0 <ℤ right.now }
    ensures { IfOk result (λ quotient. quotient ≡ ceil_div left.now right.now) }
{
    let negated = left.negated(alloc)?;
    let quotient = negated.floor_quotient(alloc, right)?;
    let ceiling = quotient.negated(alloc)?;
    Ok(ceiling)
}

/// A division by a number.
fn ceiled_by(alloc: Global, left: Found, divisor: &Integer) -> Result<Found, AllocError>
    requires { pos 0 <ℤ divisor.now }
    ensures { (a b : Purity) → Finds left a → b.pure ≡ true → b.fixed ≡ Some divisor.now → IfOk result (λ found. Finds found (purity_step (Expr-F.CeilDiv a b))) }
{
    match left {
        Found::Impure => Ok(Found::Impure),
        Found::Varies => Ok(Found::Varies),
        Found::Fixed(value) => {
            let quotient = ceiling(alloc, &value, divisor)?;
            Ok(Found::Fixed(quotient))
        }
    }
}

/// A division: the right side has neither dimension nor symbol, and is positive.
fn ceiled(alloc: Global, left: Found, right: Found) -> Result<Found, AllocError>
    ensures { (a b : Purity) → Finds left a → Finds right b → IfOk result (λ found. Finds found (purity_step (Expr-F.CeilDiv a b))) }
{
    match right {
        Found::Impure => Ok(Found::Impure),
        Found::Varies => Ok(Found::Impure),
        Found::Fixed(divisor) => {
            if divisor.is_positive() {
                ceiled_by(alloc, left, &divisor)
            } else {
                Ok(Found::Impure)
            }
        }
    }
}

#[tactic(auto, using(affine_expr::proofs::Divisions::mod_is))]
fn rest(alloc: Global, left: &Integer, right: &Integer) -> Result<Integer, AllocError>
    requires { pos 0 <ℤ right.now }
    ensures { IfOk result (λ rest. rest ≡ floor_mod left.now right.now) }
{
    let rest = left.floor_remainder(alloc, right)?;
    Ok(rest)
}

/// A division by a number.
fn reduced_by(alloc: Global, left: Found, divisor: &Integer) -> Result<Found, AllocError>
    requires { pos 0 <ℤ divisor.now }
    ensures { (a b : Purity) → Finds left a → b.pure ≡ true → b.fixed ≡ Some divisor.now → IfOk result (λ found. Finds found (purity_step (Expr-F.Mod a b))) }
{
    match left {
        Found::Impure => Ok(Found::Impure),
        Found::Varies => Ok(Found::Varies),
        Found::Fixed(value) => {
            let rest = rest(alloc, &value, divisor)?;
            Ok(Found::Fixed(rest))
        }
    }
}

/// A division: the right side has neither dimension nor symbol, and is positive.
fn reduced(alloc: Global, left: Found, right: Found) -> Result<Found, AllocError>
    ensures { (a b : Purity) → Finds left a → Finds right b → IfOk result (λ found. Finds found (purity_step (Expr-F.Mod a b))) }
{
    match right {
        Found::Impure => Ok(Found::Impure),
        Found::Varies => Ok(Found::Impure),
        Found::Fixed(divisor) => {
            if divisor.is_positive() {
                reduced_by(alloc, left, &divisor)
            } else {
                Ok(Found::Impure)
            }
        }
    }
}

/// What is found of an expression, level by level.
#[tactic(auto, using(crate::proofs::PurityLaws::purities))]
pub fn purity(alloc: Global, expr: &Expr) -> Result<Found, AllocError>
    ensures { IfOk result (λ found. Finds found (purity expr.now)) }
{
    match expr {
        Expr::Dim(_) => Ok(Found::Varies),
        Expr::Sym(_) => Ok(Found::Varies),
        Expr::Const(value) => Ok(Found::Fixed(Integer::of(*value as i128))),
        Expr::Neg(part) => negated(alloc, purity(alloc, part.get())?),
        Expr::Add(left, right) => sum(
            alloc,
            purity(alloc, left.get())?,
            purity(alloc, right.get())?,
        ),
        Expr::Sub(left, right) => difference(
            alloc,
            purity(alloc, left.get())?,
            purity(alloc, right.get())?,
        ),
        Expr::Mul(left, right) => product(
            alloc,
            purity(alloc, left.get())?,
            purity(alloc, right.get())?,
        ),
        Expr::FloorDiv(left, right) => floored(
            alloc,
            purity(alloc, left.get())?,
            purity(alloc, right.get())?,
        ),
        Expr::CeilDiv(left, right) => ceiled(
            alloc,
            purity(alloc, left.get())?,
            purity(alloc, right.get())?,
        ),
        Expr::Mod(left, right) => reduced(
            alloc,
            purity(alloc, left.get())?,
            purity(alloc, right.get())?,
        ),
    }
}
