// The lowest rule that the start of a transfer breaks.
ghost use Rattle.std.specs.Prelude.{◌≡◌, ◌&&◌, Some, None, IfOk, true, false};
ghost use Rattle.affine_ast.specs.Nest.{Nest};
ghost use Rattle.affine_ast.specs.Nest as plain;
ghost use Rattle.affine_ast.specs.Rules.{place_in, is_in, is_value, are_in, are_values, stride_names, access_stands, access_pure, access_bounded, map_fits, ends_typed, ends_fit, ends_in_spaces, constant_of, are_stride_and_chunk, stride_well};
ghost use Rattle.affine_ast.specs.Validity.{rule_of_plain};
ghost use Rattle.affine_rules.specs.Scoped.{around_of, scope_of};

use crate::bounded::access_bounded;
use crate::kinds::{access_stands, is_count, place_in, text_rule};
use crate::lookup::{Names, constant_of, is_in, is_memref_of, is_value};
use crate::scope::{Scoped, is_released};
use affine_ast::{Access, MemrefType, Name};
use shape_rules::{access_pure, same_element, subscripts_fit};
use std::alloc::{AllocError, Global};

type Stride = Option<(Name, Name)>;

#[tactic(auto, unfolding(affine_ast::specs::Rules::are_in))]
fn stride_in<'a>(names: &Names<'a>, stride: &'a Stride) -> bool
    ensures { result ≡ are_in (scope_of names.now.entries) (stride_names stride.now) }
{
    match stride {
        None => true,
        Some((stride, chunk)) => is_in(names, stride) && is_in(names, chunk),
    }
}

#[tactic(auto, unfolding(affine_ast::specs::Rules::are_values))]
fn stride_values<'a>(names: &Names<'a>, stride: &'a Stride) -> bool
    ensures { result ≡ are_values (scope_of names.now.entries) (stride_names stride.now) }
{
    match stride {
        None => true,
        Some((stride, chunk)) => is_value(names, stride) && is_value(names, chunk),
    }
}

fn are_stride_and_chunk(stride: Option<i64>, chunk: Option<i64>) -> bool
    ensures { result ≡ are_stride_and_chunk stride chunk }
{
    match stride {
        None => false,
        Some(stride) => match chunk {
            None => false,
            Some(chunk) => stride <= 1_048_576 && chunk <= stride && 1 <= chunk,
        },
    }
}

fn stride_well<'a>(names: &Names<'a>, stride: &'a Stride) -> bool
    ensures { result ≡ stride_well (scope_of names.now.entries) stride.now }
{
    match stride {
        None => true,
        Some((stride, chunk)) => {
            are_stride_and_chunk(constant_of(names, stride), constant_of(names, chunk))
        }
    }
}

fn ends_typed<'a>(
    names: &Names<'a>,
    from: &'a Name,
    to: &'a Name,
    tag: &'a Name,
    types: &'a [MemrefType; 3],
) -> bool
    ensures { result ≡ ends_typed (scope_of names.now.entries) from.now to.now tag.now types.now }
{
    let [source, destination, tags] = types;
    is_memref_of(names, from, source)
        && is_memref_of(names, to, destination)
        && is_memref_of(names, tag, tags)
        && same_element(source.element, destination.element)
}

fn ends_fit(from_at: &Access, to_at: &Access, tag_at: &Access, types: &[MemrefType; 3]) -> bool
    ensures value { result ≡ ends_fit from_at.now to_at.now tag_at.now types.now }
    ensures maps { result ≡ true → (map_fits from_at.now ≡ true) × (map_fits to_at.now ≡ true) × (map_fits tag_at.now ≡ true) }
{
    let [source, destination, tags] = types;
    subscripts_fit(from_at, source)
        && subscripts_fit(to_at, destination)
        && subscripts_fit(tag_at, tags)
}

fn ends_in_spaces(types: &[MemrefType; 3]) -> bool
    ensures { result ≡ ends_in_spaces types.now }
{
    let [source, destination, tags] = types;
    source.space <= 1
        && destination.space <= 1
        && source.space + destination.space == 1
        && tags.space == 2
}

fn ends_pure(
    alloc: Global,
    from_at: &Access,
    to_at: &Access,
    tag_at: &Access,
) -> Result<bool, AllocError>
    ensures value { IfOk result (λ pure. pure ≡ (access_pure from_at.now && (access_pure to_at.now && access_pure tag_at.now))) }
    ensures parts { IfOk result (λ pure. pure ≡ true → (access_pure from_at.now ≡ true) × (access_pure to_at.now ≡ true) × (access_pure tag_at.now ≡ true)) }
{
    if !access_pure(alloc, from_at)? {
        return Ok(false);
    }
    if !access_pure(alloc, to_at)? {
        return Ok(false);
    }
    access_pure(alloc, tag_at)
}

fn ends_bounded<'a>(
    alloc: Global,
    names: &Names<'a>,
    from_at: &'a Access,
    to_at: &'a Access,
    tag_at: &'a Access,
) -> Result<bool, AllocError>
    requires fits { (map_fits from_at.now ≡ true) × (map_fits to_at.now ≡ true) × (map_fits tag_at.now ≡ true) }
    requires pure { (access_pure from_at.now ≡ true) × (access_pure to_at.now ≡ true) × (access_pure tag_at.now ≡ true) }
    ensures { let s = scope_of names.now.entries in IfOk result (λ bounded. bounded ≡ (access_bounded s from_at.now && (access_bounded s to_at.now && access_bounded s tag_at.now))) }
{
    if !access_bounded(alloc, names, from_at)? {
        return Ok(false);
    }
    if !access_bounded(alloc, names, to_at)? {
        return Ok(false);
    }
    access_bounded(alloc, names, tag_at)
}

/// The lowest rule that the start of a transfer breaks.
#[tactic(auto, unfolding(affine_ast::specs::Validity::rule_of_plain))]
pub fn rule_of_start<'a>(
    alloc: Global,
    scoped: &Scoped<'a>,
    from: &'a Name,
    from_at: &'a Access,
    to: &'a Name,
    to_at: &'a Access,
    tag: &'a Name,
    tag_at: &'a Access,
    count: &'a Name,
    stride: &'a Stride,
    types: &'a [MemrefType; 3],
) -> Result<Option<u8>, AllocError>
    ensures { (rest : Nest) → IfOk result (λ found. found ≡ rule_of_plain (around_of scoped.now) (plain.Start from.now from_at.now to.now to_at.now tag.now tag_at.now count.now stride.now types.now) rest) }
{
    let names = &scoped.names;
    if !(place_in(names, from, from_at)
        && place_in(names, to, to_at)
        && place_in(names, tag, tag_at)
        && is_in(names, count)
        && stride_in(names, stride))
    {
        return Ok(Some(1));
    }
    if !(access_stands(names, from_at)
        && access_stands(names, to_at)
        && access_stands(names, tag_at)
        && is_value(names, count)
        && stride_values(names, stride))
    {
        return Ok(Some(4));
    }
    if !ends_typed(names, from, to, tag, types) {
        return Ok(Some(5));
    }
    if !ends_fit(from_at, to_at, tag_at, types) {
        return Ok(Some(7));
    }
    if !ends_pure(alloc, from_at, to_at, tag_at)? {
        return Ok(Some(8));
    }
    if !ends_bounded(alloc, names, from_at, to_at, tag_at)? {
        return Ok(Some(9));
    }
    if !(ends_in_spaces(types)
        && is_count(names, count)
        && stride_well(names, stride)
        && !is_released(&scoped.released, from)
        && !is_released(&scoped.released, to)
        && !is_released(&scoped.released, tag))
    {
        return Ok(Some(10));
    }
    Ok(text_rule(scoped))
}
