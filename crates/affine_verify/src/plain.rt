// Plain statements: the rule that one breaks, or what it puts in scope.
ghost use Rattle.std.specs.Prelude.{◌≡◌, Some, None, IfOk, OnOk, true, false};
ghost use Rattle.affine_ast.specs.Nest.{Nest};
ghost use Rattle.affine_ast.specs.Nest as plain;
ghost use Rattle.affine_ast.specs.Rules.{is_released_once};
ghost use Rattle.affine_ast.specs.Scope.{binding_of_constant};
ghost use Rattle.affine_ast.specs.Validity.{rule_of_plain};
ghost use Rattle.affine_rules.specs.Scoped.{around_of, binding_of};
ghost use Rattle.affine_verify.specs.Comes.{Plainly, Defines};

use crate::fault::{VerifyFault, judged};
use crate::totals::{allocation_fits, with_allocation};
use crate::values::picked;
use affine_ast::{Access, MemrefType, Name, Pick, Scalar};
use affine_rules::{
    Binding, Scoped, define, is_in, is_released, release, rule_of_binary, rule_of_cast,
    rule_of_constant, rule_of_dealloc, rule_of_load, rule_of_raw_load, rule_of_value, text_rule,
};
use int_ops::{CastKind, Op};
use shape_rules::allocates_well;
use std::alloc::{AllocError, Global};

/// Puts a name in scope behind a statement that breaks no rule.
pub(crate) fn defined<'a>(
    line: u32,
    rule: Option<u8>,
    name: &'a Name,
    binding: Binding,
    scoped: &mut Scoped<'a>,
) -> Result<(), VerifyFault>
    ensures { Defines result line rule name.now (binding_of binding) scoped.old scoped.new }
{
    judged(line, rule)?;
    if is_in(&scoped.names, name) {
        return Ok(());
    }
    define(&mut scoped.names, name, binding)?;
    Ok(())
}

pub(crate) fn value_stmt<'a>(
    alloc: Global,
    line: u32,
    into: &'a Name,
    pick: Pick,
    at: &'a Access,
    scoped: &mut Scoped<'a>,
) -> Result<(), VerifyFault>
    ensures { (rest : Nest) → Plainly result line (plain.Value into.now pick at.now) rest scoped.old scoped.new }
{
    let rule = rule_of_value(alloc, scoped, into, pick, at)?;
    judged(line, rule)?;
    let interval = picked(alloc, &scoped.names, pick, at)?;
    defined(line, rule, into, Binding::Variable(interval), scoped)
}

pub(crate) fn load_stmt<'a>(
    alloc: Global,
    line: u32,
    into: &'a Name,
    memref: &'a Name,
    at: &'a Access,
    ty: &'a MemrefType,
    scoped: &mut Scoped<'a>,
) -> Result<(), VerifyFault>
    ensures { (rest : Nest) → Plainly result line (plain.Load into.now memref.now at.now ty.now) rest scoped.old scoped.new }
{
    let rule = rule_of_load(alloc, scoped, into, memref, at, ty)?;
    defined(
        line,
        rule,
        into,
        Binding::Data(Scalar::Int(ty.element)),
        scoped,
    )
}

pub(crate) fn raw_load_stmt<'a>(
    line: u32,
    into: &'a Name,
    memref: &'a Name,
    at: &'a [Name],
    ty: &'a MemrefType,
    scoped: &mut Scoped<'a>,
) -> Result<(), VerifyFault>
    ensures { (rest : Nest) → Plainly result line (plain.RawLoad into.now memref.now at.now ty.now) rest scoped.old scoped.new }
{
    let rule = rule_of_raw_load(scoped, into, memref, at, ty);
    defined(
        line,
        rule,
        into,
        Binding::Data(Scalar::Int(ty.element)),
        scoped,
    )
}

fn constant_binding(value: i64, ty: Scalar) -> Binding
    ensures { binding_of result ≡ binding_of_constant value ty }
{
    match ty {
        Scalar::Int(_) => Binding::Data(ty),
        Scalar::Index => Binding::IndexConstant(value),
    }
}

pub(crate) fn constant_stmt<'a>(
    line: u32,
    into: &'a Name,
    value: i64,
    ty: Scalar,
    scoped: &mut Scoped<'a>,
) -> Result<(), VerifyFault>
    ensures { (rest : Nest) → Plainly result line (plain.Constant into.now value ty) rest scoped.old scoped.new }
{
    let rule = rule_of_constant(scoped, into, value, ty);
    let binding = constant_binding(value, ty);
    defined(line, rule, into, binding, scoped)
}

pub(crate) fn binary_stmt<'a>(
    line: u32,
    into: &'a Name,
    op: Op,
    left: &'a Name,
    right: &'a Name,
    ty: Scalar,
    scoped: &mut Scoped<'a>,
) -> Result<(), VerifyFault>
    ensures { (rest : Nest) → Plainly result line (plain.Binary into.now op left.now right.now ty) rest scoped.old scoped.new }
{
    let rule = rule_of_binary(scoped, into, op, left, right, ty);
    defined(line, rule, into, Binding::Data(ty), scoped)
}

pub(crate) fn cast_stmt<'a>(
    line: u32,
    into: &'a Name,
    kind: CastKind,
    value: &'a Name,
    from: Scalar,
    to: Scalar,
    scoped: &mut Scoped<'a>,
) -> Result<(), VerifyFault>
    ensures { (rest : Nest) → Plainly result line (plain.Cast into.now kind value.now from to) rest scoped.old scoped.new }
{
    let rule = rule_of_cast(scoped, into, kind, value, from, to);
    defined(line, rule, into, Binding::Data(to), scoped)
}

/// The lowest rule that an allocation breaks, which is released exactly once or not.
#[tactic(auto, unfolding(affine_ast::specs::Validity::rule_of_plain))]
fn rule_of_alloc<'a>(scoped: &Scoped<'a>, into: &'a Name, ty: &MemrefType, once: bool) -> Option<u8>
    ensures { (rest : Nest) → once ≡ is_released_once into.now rest → result ≡ rule_of_plain (around_of scoped.now) (plain.Alloc into.now ty.now) rest }
{
    if is_in(&scoped.names, into) {
        return Some(2);
    }
    if !(allocates_well(ty) && once) {
        return Some(10);
    }
    if !allocation_fits(scoped.totals, ty) {
        return Some(11);
    }
    text_rule(scoped)
}

pub(crate) fn alloc_stmt<'a>(
    alloc: Global,
    line: u32,
    into: &'a Name,
    ty: &'a MemrefType,
    once: bool,
    scoped: &mut Scoped<'a>,
) -> Result<(), VerifyFault>
    ensures { (rest : Nest) → once ≡ is_released_once into.now rest → Plainly result line (plain.Alloc into.now ty.now) rest scoped.old scoped.new }
{
    let rule = rule_of_alloc(scoped, into, ty, once);
    judged(line, rule)?;
    let totals = with_allocation(scoped.totals, ty);
    let copied = ty.copy(alloc)?;
    defined(line, rule, into, Binding::Allocation(copied), scoped)?;
    scoped.totals = totals;
    Ok(())
}

pub(crate) fn dealloc_stmt<'a>(
    line: u32,
    memref: &'a Name,
    ty: &'a MemrefType,
    scoped: &mut Scoped<'a>,
) -> Result<(), VerifyFault>
    ensures { (rest : Nest) → Plainly result line (plain.Dealloc memref.now ty.now) rest scoped.old scoped.new }
{
    let rule = rule_of_dealloc(scoped, memref, ty);
    judged(line, rule)?;
    release(&mut scoped.released, memref)?;
    Ok(())
}
