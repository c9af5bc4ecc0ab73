// Plain statements are numbered.
ghost use Rattle.std.specs.Prelude.{◌≡◌, IfOk};
ghost use Rattle.affine_ast.specs.Nest as named;
ghost use Rattle.walk_program.specs.Numbering.{NumbersPlain};

use crate::numbering::Numbering;
use crate::plain::Plain;
use affine_ast::{Access, MemrefType, Name, Pick, Scalar};
use int_ops::{CastKind, Op};
use std::alloc::{AllocError, Global};

pub(crate) fn number_value<'a>(
    numbering: &mut Numbering<'a>,
    alloc: Global,
    into: &'a Name,
    pick: Pick,
    at: &'a Access,
) -> Result<Plain, AllocError>
    ensures { IfOk result (λ p. NumbersPlain p (named.Value into.now pick at.now) numbering.old numbering.new) }
{
    Ok(Plain::Value {
        result: numbering.number(into)?,
        pick,
        at: numbering.subscripts(alloc, at)?,
    })
}

pub(crate) fn number_load<'a>(
    numbering: &mut Numbering<'a>,
    alloc: Global,
    into: &'a Name,
    memref: &'a Name,
    at: &'a Access,
    ty: &MemrefType,
) -> Result<Plain, AllocError>
    ensures { IfOk result (λ p. NumbersPlain p (named.Load into.now memref.now at.now ty.now) numbering.old
        numbering.new) }
{
    Ok(Plain::Load {
        result: numbering.number(into)?,
        memref: numbering.number(memref)?,
        at: numbering.subscripts(alloc, at)?,
        ty: ty.copy(alloc)?,
    })
}

pub(crate) fn number_store<'a>(
    numbering: &mut Numbering<'a>,
    alloc: Global,
    value: &'a Name,
    memref: &'a Name,
    at: &'a Access,
    ty: &MemrefType,
) -> Result<Plain, AllocError>
    ensures { IfOk result (λ p. NumbersPlain p (named.Store value.now memref.now at.now ty.now) numbering.old
        numbering.new) }
{
    Ok(Plain::Store {
        value: numbering.number(value)?,
        memref: numbering.number(memref)?,
        at: numbering.subscripts(alloc, at)?,
        ty: ty.copy(alloc)?,
    })
}

pub(crate) fn number_raw_load<'a>(
    numbering: &mut Numbering<'a>,
    alloc: Global,
    into: &'a Name,
    memref: &'a Name,
    at: &'a [Name],
    ty: &MemrefType,
) -> Result<Plain, AllocError>
    ensures { IfOk result (λ p. NumbersPlain p (named.RawLoad into.now memref.now at.now ty.now) numbering.old
        numbering.new) }
{
    Ok(Plain::RawLoad {
        result: numbering.number(into)?,
        memref: numbering.number(memref)?,
        at: numbering.operands(alloc, at)?,
        ty: ty.copy(alloc)?,
    })
}

pub(crate) fn number_raw_store<'a>(
    numbering: &mut Numbering<'a>,
    alloc: Global,
    value: &'a Name,
    memref: &'a Name,
    at: &'a [Name],
    ty: &MemrefType,
) -> Result<Plain, AllocError>
    ensures { IfOk result (λ p. NumbersPlain p (named.RawStore value.now memref.now at.now ty.now) numbering.old
        numbering.new) }
{
    Ok(Plain::RawStore {
        value: numbering.number(value)?,
        memref: numbering.number(memref)?,
        at: numbering.operands(alloc, at)?,
        ty: ty.copy(alloc)?,
    })
}

pub(crate) fn number_constant<'a>(
    numbering: &mut Numbering<'a>,
    into: &'a Name,
    value: i64,
    ty: Scalar,
) -> Result<Plain, AllocError>
    ensures { IfOk result (λ p. NumbersPlain p (named.Constant into.now value ty) numbering.old numbering.new) }
{
    Ok(Plain::Constant {
        result: numbering.number(into)?,
        value,
        ty,
    })
}

pub(crate) fn number_binary<'a>(
    numbering: &mut Numbering<'a>,
    into: &'a Name,
    op: Op,
    left: &'a Name,
    right: &'a Name,
    ty: Scalar,
) -> Result<Plain, AllocError>
    ensures { IfOk result (λ p. NumbersPlain p (named.Binary into.now op left.now right.now ty) numbering.old
        numbering.new) }
{
    Ok(Plain::Binary {
        result: numbering.number(into)?,
        op,
        left: numbering.number(left)?,
        right: numbering.number(right)?,
        ty,
    })
}

pub(crate) fn number_cast<'a>(
    numbering: &mut Numbering<'a>,
    into: &'a Name,
    kind: CastKind,
    value: &'a Name,
    from: Scalar,
    to: Scalar,
) -> Result<Plain, AllocError>
    ensures { IfOk result (λ p. NumbersPlain p (named.Cast into.now kind value.now from to) numbering.old
        numbering.new) }
{
    Ok(Plain::Cast {
        result: numbering.number(into)?,
        kind,
        value: numbering.number(value)?,
        from,
        to,
    })
}

pub(crate) fn number_alloc<'a>(
    numbering: &mut Numbering<'a>,
    alloc: Global,
    into: &'a Name,
    ty: &MemrefType,
) -> Result<Plain, AllocError>
    ensures { IfOk result (λ p. NumbersPlain p (named.Alloc into.now ty.now) numbering.old numbering.new) }
{
    Ok(Plain::Alloc {
        result: numbering.number(into)?,
        ty: ty.copy(alloc)?,
    })
}

pub(crate) fn number_dealloc<'a>(
    numbering: &mut Numbering<'a>,
    alloc: Global,
    memref: &'a Name,
    ty: &MemrefType,
) -> Result<Plain, AllocError>
    ensures { IfOk result (λ p. NumbersPlain p (named.Dealloc memref.now ty.now) numbering.old numbering.new) }
{
    Ok(Plain::Dealloc {
        memref: numbering.number(memref)?,
        ty: ty.copy(alloc)?,
    })
}

fn copy_types(alloc: Global, types: &[MemrefType; 3]) -> Result<[MemrefType; 3], AllocError>
    ensures { IfOk result (λ copied. copied ≡ types.now) }
{
    let [source, destination, tags] = types;
    let source = source.copy(alloc)?;
    let destination = destination.copy(alloc)?;
    let tags = tags.copy(alloc)?;
    Ok([source, destination, tags])
}

pub(crate) fn number_start<'a>(
    numbering: &mut Numbering<'a>,
    alloc: Global,
    from: &'a Name,
    from_at: &'a Access,
    to: &'a Name,
    to_at: &'a Access,
    tag: &'a Name,
    tag_at: &'a Access,
    count: &'a Name,
    stride: &'a Option<(Name, Name)>,
    types: &[MemrefType; 3],
) -> Result<Plain, AllocError>
    ensures { IfOk result (λ p. NumbersPlain p (named.Start from.now from_at.now to.now to_at.now tag.now tag_at.now
        count.now stride.now types.now) numbering.old numbering.new) }
{
    Ok(Plain::Start {
        from: numbering.number(from)?,
        from_at: numbering.subscripts(alloc, from_at)?,
        to: numbering.number(to)?,
        to_at: numbering.subscripts(alloc, to_at)?,
        tag: numbering.number(tag)?,
        tag_at: numbering.subscripts(alloc, tag_at)?,
        count: numbering.number(count)?,
        stride: numbering.stride(stride)?,
        types: copy_types(alloc, types)?,
    })
}

pub(crate) fn number_wait<'a>(
    numbering: &mut Numbering<'a>,
    alloc: Global,
    tag: &'a Name,
    tag_at: &'a Access,
    count: &'a Name,
    ty: &MemrefType,
) -> Result<Plain, AllocError>
    ensures { IfOk result (λ p. NumbersPlain p (named.Wait tag.now tag_at.now count.now ty.now) numbering.old
        numbering.new) }
{
    Ok(Plain::Wait {
        tag: numbering.number(tag)?,
        tag_at: numbering.subscripts(alloc, tag_at)?,
        count: numbering.number(count)?,
        ty: ty.copy(alloc)?,
    })
}
