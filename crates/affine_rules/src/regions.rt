// The lowest rule that a loop or a condition breaks by itself.
ghost use Rattle.std.specs.Prelude.{◌≡◌, ◌&&◌, Some, None, IfOk, true, false};
ghost use Rattle.affine_ast.specs.Rules.{bound_in, bound_stands, bound_fits, bound_pure, bound_bounded, step_positive};
ghost use Rattle.affine_ast.specs.Validity.{rule_of_loop, rule_of_condition};
ghost use Rattle.affine_rules.specs.Scoped.{around_of, scope_of};

use crate::bounded::{bound_bounded, set_bounded};
use crate::kinds::{access_stands, text_rule};
use crate::lookup::{Names, are_in, is_dimension, is_in, operands_stand};
use crate::scope::Scoped;
use affine_ast::{Bound, Name};
use affine_expr::Set;
use shape_rules::{bound_fits, bound_pure, set_fits, set_pure};
use std::alloc::{AllocError, Global};

fn bound_in<'a>(names: &Names<'a>, bound: &'a Bound) -> bool
    ensures { result ≡ bound_in (scope_of names.now.entries) bound.now }
{
    match bound {
        Bound::Int(_) => true,
        Bound::Value(name) => is_in(names, name),
        Bound::Map(at) => are_in(names, at.operands.as_slice()),
    }
}

fn bound_stands<'a>(names: &Names<'a>, bound: &'a Bound) -> bool
    ensures { result ≡ bound_stands (scope_of names.now.entries) bound.now }
{
    match bound {
        Bound::Int(_) => true,
        Bound::Value(name) => is_dimension(names, name),
        Bound::Map(at) => access_stands(names, at),
    }
}

fn bounds_pure(alloc: Global, lower: &Bound, upper: &Bound, step: i64) -> Result<bool, AllocError>
    ensures value { IfOk result (λ pure. pure ≡ (bound_pure lower.now && (bound_pure upper.now && step_positive step))) }
    ensures parts { IfOk result (λ pure. pure ≡ true → (bound_pure lower.now ≡ true) × (bound_pure upper.now ≡ true)) }
{
    if !bound_pure(alloc, lower)? {
        return Ok(false);
    }
    if !bound_pure(alloc, upper)? {
        return Ok(false);
    }
    Ok(0 < step)
}

fn bounds_bounded<'a>(
    alloc: Global,
    names: &Names<'a>,
    lower: &'a Bound,
    upper: &'a Bound,
) -> Result<bool, AllocError>
    requires lower_fits { bound_fits lower.now ≡ true }
    requires upper_fits { bound_fits upper.now ≡ true }
    requires lower_pure { bound_pure lower.now ≡ true }
    requires upper_pure { bound_pure upper.now ≡ true }
    ensures { IfOk result (λ bounded. bounded ≡ (bound_bounded (scope_of names.now.entries) lower.now && bound_bounded (scope_of names.now.entries) upper.now)) }
{
    if !bound_bounded(alloc, names, lower)? {
        return Ok(false);
    }
    bound_bounded(alloc, names, upper)
}

/// The lowest rule that a loop breaks by itself.
#[tactic(auto, unfolding(affine_ast::specs::Validity::rule_of_loop))]
pub fn rule_of_loop<'a>(
    alloc: Global,
    scoped: &Scoped<'a>,
    var: &'a Name,
    lower: &'a Bound,
    upper: &'a Bound,
    step: i64,
) -> Result<Option<u8>, AllocError>
    ensures { IfOk result (λ found. found ≡ rule_of_loop (around_of scoped.now) var.now lower.now upper.now step) }
{
    let names = &scoped.names;
    if !(bound_in(names, lower) && bound_in(names, upper)) {
        return Ok(Some(1));
    }
    if is_in(names, var) {
        return Ok(Some(2));
    }
    if !(bound_stands(names, lower) && bound_stands(names, upper)) {
        return Ok(Some(4));
    }
    if !(bound_fits(lower) && bound_fits(upper)) {
        return Ok(Some(7));
    }
    if !bounds_pure(alloc, lower, upper, step)? {
        return Ok(Some(8));
    }
    if !bounds_bounded(alloc, names, lower, upper)? {
        return Ok(Some(9));
    }
    Ok(text_rule(scoped))
}

/// The lowest rule that a condition breaks by itself.
#[tactic(auto, unfolding(affine_ast::specs::Validity::rule_of_condition))]
pub fn rule_of_condition<'a>(
    alloc: Global,
    scoped: &Scoped<'a>,
    set: &'a Set,
    operands: &'a [Name],
) -> Result<Option<u8>, AllocError>
    ensures { IfOk result (λ found. found ≡ rule_of_condition (around_of scoped.now) set.now operands.now) }
{
    let names = &scoped.names;
    if !are_in(names, operands) {
        return Ok(Some(1));
    }
    if !operands_stand(names, set.dims, operands) {
        return Ok(Some(4));
    }
    if !set_fits(set, operands) {
        return Ok(Some(7));
    }
    if !set_pure(alloc, set)? {
        return Ok(Some(8));
    }
    if !set_bounded(alloc, names, set, operands)? {
        return Ok(Some(9));
    }
    Ok(text_rule(scoped))
}
