// The lowest rule that a statement breaks, kind by kind.
ghost use Rattle.std.specs.Prelude.{◌≡◌, Some, None, IfOk, true, false};
ghost use Rattle.affine_ast.specs.Nest.{Nest, nest};
ghost use Rattle.affine_ast.specs.Nest as plain;
ghost use Rattle.affine_ast.specs.Rules.{place_in, access_stands, text_within, is_count, constant_of};
ghost use Rattle.affine_ast.specs.Validity.{rule, rule_of_plain, rule_of_loop, rule_of_condition};
ghost use Rattle.affine_rules.specs.Scoped.{around_of, scope_of};

use crate::bounded::{access_bounded, bound_bounded, set_bounded};
use crate::lookup::{
    Names, are_in, are_indexes, are_values, constant_of, is_allocated, is_dimension, is_in,
    is_memref_of, is_of, is_value, operands_stand,
};
use crate::scope::{Scoped, is_released};
use affine_ast::{Access, Bound, MemrefType, Name, Pick, Scalar};
use affine_expr::Set;
use int_ops::{CastKind, Op};
use shape_rules::{
    access_pure, allocates_well, bound_fits, bound_pure, casts_between, constant_fits, is_loadable,
    map_fits, results_fit, set_fits, set_pure, shape_within, subscripts_fit,
};
use std::alloc::{AllocError, Global};

pub fn place_in<'a>(names: &Names<'a>, memref: &'a Name, at: &'a Access) -> bool
    ensures { result ≡ place_in (scope_of names.now.entries) memref.now at.now }
{
    is_in(names, memref) && are_in(names, at.operands.as_slice())
}

pub fn access_stands<'a>(names: &Names<'a>, at: &'a Access) -> bool
    ensures { result ≡ access_stands (scope_of names.now.entries) at.now }
{
    operands_stand(names, at.map.dims, at.operands.as_slice())
}

/// Whether the statements so far, and the loops and conditions round this one, are within the limits.
pub fn text_within(scoped: &Scoped<'_>) -> bool
    ensures { result ≡ text_within (around_of scoped.now) }
{
    scoped.totals.statements <= 65_536 && scoped.loops <= 16 && scoped.ifs <= 16
}

pub fn text_rule(scoped: &Scoped<'_>) -> Option<u8>
    ensures { result ≡ rule 12 (text_within (around_of scoped.now)) None }
{
    if text_within(scoped) { None } else { Some(12) }
}

#[tactic(auto, unfolding(affine_ast::specs::Validity::rule_of_plain))]
pub fn rule_of_value<'a>(
    alloc: Global,
    scoped: &Scoped<'a>,
    into: &'a Name,
    pick: Pick,
    at: &'a Access,
) -> Result<Option<u8>, AllocError>
    ensures { (rest : Nest) → IfOk result (λ found. found ≡ rule_of_plain (around_of scoped.now) (plain.Value into.now pick at.now) rest) }
{
    let names = &scoped.names;
    if !are_in(names, at.operands.as_slice()) {
        return Ok(Some(1));
    }
    if is_in(names, into) {
        return Ok(Some(2));
    }
    if !access_stands(names, at) {
        return Ok(Some(4));
    }
    if !(map_fits(at) && results_fit(pick, at)) {
        return Ok(Some(7));
    }
    if !access_pure(alloc, at)? {
        return Ok(Some(8));
    }
    if !access_bounded(alloc, names, at)? {
        return Ok(Some(9));
    }
    Ok(text_rule(scoped))
}

#[tactic(auto, unfolding(affine_ast::specs::Validity::rule_of_plain))]
pub fn rule_of_load<'a>(
    alloc: Global,
    scoped: &Scoped<'a>,
    into: &'a Name,
    memref: &'a Name,
    at: &'a Access,
    ty: &'a MemrefType,
) -> Result<Option<u8>, AllocError>
    ensures { (rest : Nest) → IfOk result (λ found. found ≡ rule_of_plain (around_of scoped.now) (plain.Load into.now memref.now at.now ty.now) rest) }
{
    let names = &scoped.names;
    if !place_in(names, memref, at) {
        return Ok(Some(1));
    }
    if is_in(names, into) {
        return Ok(Some(2));
    }
    if !access_stands(names, at) {
        return Ok(Some(4));
    }
    if !is_memref_of(names, memref, ty) {
        return Ok(Some(5));
    }
    if !subscripts_fit(at, ty) {
        return Ok(Some(7));
    }
    if !access_pure(alloc, at)? {
        return Ok(Some(8));
    }
    if !access_bounded(alloc, names, at)? {
        return Ok(Some(9));
    }
    if !is_loadable(ty) || is_released(&scoped.released, memref) {
        return Ok(Some(10));
    }
    Ok(text_rule(scoped))
}

#[tactic(auto, unfolding(affine_ast::specs::Validity::rule_of_plain))]
pub fn rule_of_store<'a>(
    alloc: Global,
    scoped: &Scoped<'a>,
    value: &'a Name,
    memref: &'a Name,
    at: &'a Access,
    ty: &'a MemrefType,
) -> Result<Option<u8>, AllocError>
    ensures { (rest : Nest) → IfOk result (λ found. found ≡ rule_of_plain (around_of scoped.now) (plain.Store value.now memref.now at.now ty.now) rest) }
{
    let names = &scoped.names;
    if !(is_in(names, value) && place_in(names, memref, at)) {
        return Ok(Some(1));
    }
    if !(is_value(names, value) && access_stands(names, at)) {
        return Ok(Some(4));
    }
    if !(is_of(names, value, Scalar::Int(ty.element)) && is_memref_of(names, memref, ty)) {
        return Ok(Some(5));
    }
    if !subscripts_fit(at, ty) {
        return Ok(Some(7));
    }
    if !access_pure(alloc, at)? {
        return Ok(Some(8));
    }
    if !access_bounded(alloc, names, at)? {
        return Ok(Some(9));
    }
    if !is_loadable(ty) || is_released(&scoped.released, memref) {
        return Ok(Some(10));
    }
    Ok(text_rule(scoped))
}

#[tactic(auto, unfolding(affine_ast::specs::Validity::rule_of_plain))]
pub fn rule_of_raw_load<'a>(
    scoped: &Scoped<'a>,
    into: &'a Name,
    memref: &'a Name,
    at: &'a [Name],
    ty: &'a MemrefType,
) -> Option<u8>
    ensures { (rest : Nest) → result ≡ rule_of_plain (around_of scoped.now) (plain.RawLoad into.now memref.now at.now ty.now) rest }
{
    let names = &scoped.names;
    if !(is_in(names, memref) && are_in(names, at)) {
        return Some(1);
    }
    if is_in(names, into) {
        return Some(2);
    }
    if !are_values(names, at) {
        return Some(4);
    }
    if !(is_memref_of(names, memref, ty) && are_indexes(names, at)) {
        return Some(5);
    }
    if at.len() != ty.sizes.len() {
        return Some(7);
    }
    if !is_loadable(ty) || is_released(&scoped.released, memref) {
        return Some(10);
    }
    text_rule(scoped)
}

#[tactic(auto, unfolding(affine_ast::specs::Validity::rule_of_plain))]
pub fn rule_of_raw_store<'a>(
    scoped: &Scoped<'a>,
    value: &'a Name,
    memref: &'a Name,
    at: &'a [Name],
    ty: &'a MemrefType,
) -> Option<u8>
    ensures { (rest : Nest) → result ≡ rule_of_plain (around_of scoped.now) (plain.RawStore value.now memref.now at.now ty.now) rest }
{
    let names = &scoped.names;
    if !(is_in(names, value) && is_in(names, memref) && are_in(names, at)) {
        return Some(1);
    }
    if !(is_value(names, value) && are_values(names, at)) {
        return Some(4);
    }
    if !(is_of(names, value, Scalar::Int(ty.element))
        && is_memref_of(names, memref, ty)
        && are_indexes(names, at))
    {
        return Some(5);
    }
    if at.len() != ty.sizes.len() {
        return Some(7);
    }
    if !is_loadable(ty) || is_released(&scoped.released, memref) {
        return Some(10);
    }
    text_rule(scoped)
}

#[tactic(auto, unfolding(affine_ast::specs::Validity::rule_of_plain))]
pub fn rule_of_constant<'a>(
    scoped: &Scoped<'a>,
    into: &'a Name,
    value: i64,
    ty: Scalar,
) -> Option<u8>
    ensures { (rest : Nest) → result ≡ rule_of_plain (around_of scoped.now) (plain.Constant into.now value ty) rest }
{
    let names = &scoped.names;
    if is_in(names, into) {
        return Some(2);
    }
    if !constant_fits(value, ty) {
        return Some(6);
    }
    text_rule(scoped)
}

#[tactic(auto, unfolding(affine_ast::specs::Validity::rule_of_plain))]
pub fn rule_of_binary<'a>(
    scoped: &Scoped<'a>,
    into: &'a Name,
    op: Op,
    left: &'a Name,
    right: &'a Name,
    ty: Scalar,
) -> Option<u8>
    ensures { (rest : Nest) → result ≡ rule_of_plain (around_of scoped.now) (plain.Binary into.now op left.now right.now ty) rest }
{
    let names = &scoped.names;
    if !(is_in(names, left) && is_in(names, right)) {
        return Some(1);
    }
    if is_in(names, into) {
        return Some(2);
    }
    if !(is_value(names, left) && is_value(names, right)) {
        return Some(4);
    }
    if !(is_of(names, left, ty) && is_of(names, right, ty)) {
        return Some(5);
    }
    text_rule(scoped)
}

#[tactic(auto, unfolding(affine_ast::specs::Validity::rule_of_plain))]
pub fn rule_of_cast<'a>(
    scoped: &Scoped<'a>,
    into: &'a Name,
    kind: CastKind,
    value: &'a Name,
    from: Scalar,
    to: Scalar,
) -> Option<u8>
    ensures { (rest : Nest) → result ≡ rule_of_plain (around_of scoped.now) (plain.Cast into.now kind value.now from to) rest }
{
    let names = &scoped.names;
    if !is_in(names, value) {
        return Some(1);
    }
    if is_in(names, into) {
        return Some(2);
    }
    if !is_value(names, value) {
        return Some(4);
    }
    if !(is_of(names, value, from) && casts_between(kind, from, to)) {
        return Some(5);
    }
    text_rule(scoped)
}

#[tactic(auto, unfolding(affine_ast::specs::Validity::rule_of_plain))]
pub fn rule_of_dealloc<'a>(scoped: &Scoped<'a>, memref: &'a Name, ty: &'a MemrefType) -> Option<u8>
    ensures { (rest : Nest) → result ≡ rule_of_plain (around_of scoped.now) (plain.Dealloc memref.now ty.now) rest }
{
    let names = &scoped.names;
    if !is_in(names, memref) {
        return Some(1);
    }
    if !is_memref_of(names, memref, ty) {
        return Some(5);
    }
    if !is_allocated(names, memref) || is_released(&scoped.released, memref) {
        return Some(10);
    }
    text_rule(scoped)
}

#[tactic(auto, unfolding(affine_ast::specs::Validity::rule_of_plain))]
pub fn rule_of_wait<'a>(
    alloc: Global,
    scoped: &Scoped<'a>,
    tag: &'a Name,
    at: &'a Access,
    count: &'a Name,
    ty: &'a MemrefType,
) -> Result<Option<u8>, AllocError>
    ensures { (rest : Nest) → IfOk result (λ found. found ≡ rule_of_plain (around_of scoped.now) (plain.Wait tag.now at.now count.now ty.now) rest) }
{
    let names = &scoped.names;
    if !(place_in(names, tag, at) && is_in(names, count)) {
        return Ok(Some(1));
    }
    if !(access_stands(names, at) && is_value(names, count)) {
        return Ok(Some(4));
    }
    if !is_memref_of(names, tag, ty) {
        return Ok(Some(5));
    }
    if !subscripts_fit(at, ty) {
        return Ok(Some(7));
    }
    if !access_pure(alloc, at)? {
        return Ok(Some(8));
    }
    if !access_bounded(alloc, names, at)? {
        return Ok(Some(9));
    }
    if ty.space != 2 || !is_count(names, count) || is_released(&scoped.released, tag) {
        return Ok(Some(10));
    }
    Ok(text_rule(scoped))
}

#[tactic(auto, unfolding(affine_ast::specs::Validity::rule_of_plain))]
pub fn rule_of_return(scoped: &Scoped<'_>) -> Option<u8>
    ensures { (rest : Nest) → result ≡ rule_of_plain (around_of scoped.now) plain.Return rest }
{
    text_rule(scoped)
}

/// Whether a name is of an index constant of at least 1.
pub fn is_count<'a>(names: &Names<'a>, name: &'a Name) -> bool
    ensures { result ≡ is_count (constant_of (scope_of names.now.entries) name.now) }
{
    match constant_of(names, name) {
        Some(count) => 1 <= count,
        None => false,
    }
}
