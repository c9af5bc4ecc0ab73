// Statements without a region.
ghost use Rattle.std.specs.Prelude.{◌≡◌, ◌++◌, OnOk};
ghost use Rattle.affine_ast.specs.Spelling.{listed, memref_text, name_text, place_text, raw_place_text, operation_word, cast_word, value_word, defined_text, named_text, pair_text, value_text, load_text, store_text, raw_load_text, raw_store_text, constant_text, binary_text, cast_types_text, cast_text, alloc_text, dealloc_text, stride_text, first_place_text, ends_text, amount_text, wait_text};

use crate::access::{put_subscripts, put_use};
use crate::piece::{put, put_comma, put_name, put_names, put_signed};
use crate::types::{put_memref, put_scalar, put_scalar_typed, put_typed};
use affine_ast::{Access, MemrefType, Name, Pick, Scalar};
use int_ops::{CastKind, Op};
use std::alloc::{AllocError, Global};

fn operation(op: Op) -> &'static [u8]
    ensures { result.now ≡ operation_word op }
{
    match op {
        Op::Add => b"arith.addi ",
        Op::Sub => b"arith.subi ",
        Op::Mul => b"arith.muli ",
        Op::DivS => b"arith.divsi ",
        Op::RemS => b"arith.remsi ",
        Op::DivU => b"arith.divui ",
        Op::RemU => b"arith.remui ",
        Op::FloorDivS => b"arith.floordivsi ",
        Op::CeilDivS => b"arith.ceildivsi ",
        Op::And => b"arith.andi ",
        Op::Or => b"arith.ori ",
        Op::Xor => b"arith.xori ",
        Op::MaxS => b"arith.maxsi ",
        Op::MinS => b"arith.minsi ",
        Op::MaxU => b"arith.maxui ",
        Op::MinU => b"arith.minui ",
    }
}

fn cast(kind: CastKind) -> &'static [u8]
    ensures { result.now ≡ cast_word kind }
{
    match kind {
        CastKind::Index => b"arith.index_cast ",
        CastKind::ExtS => b"arith.extsi ",
        CastKind::ExtU => b"arith.extui ",
        CastKind::Trunc => b"arith.trunci ",
    }
}

fn picked(pick: Pick) -> &'static [u8]
    ensures { result.now ≡ value_word pick }
{
    match pick {
        Pick::Apply => b"affine.apply ",
        Pick::Min => b"affine.min ",
        Pick::Max => b"affine.max ",
    }
}

/// What a statement defines, and its word.
#[tactic(auto, unfolding(affine_ast::specs::Spelling::defined_text))]
fn put_defined(out: &mut Vec<u8>, name: &Name, word: &[u8]) -> Result<(), AllocError>
    ensures { OnOk result (out.new.items ≡ out.old.items ++ defined_text name.now word.now) }
{
    put_name(out, name)?;
    put(out, b" = ")?;
    put(out, word)
}

/// A word and a name.
#[tactic(auto, unfolding(affine_ast::specs::Spelling::named_text))]
pub fn put_named(out: &mut Vec<u8>, word: &[u8], name: &Name) -> Result<(), AllocError>
    ensures { OnOk result (out.new.items ≡ out.old.items ++ named_text word.now name.now) }
{
    put(out, word)?;
    put_name(out, name)
}

#[tactic(auto, unfolding(affine_ast::specs::Spelling::place_text))]
fn put_place(alloc: Global, out: &mut Vec<u8>, memref: &Name, at: &Access) -> Result<(), AllocError>
    ensures { OnOk result (out.new.items ≡ out.old.items ++ place_text memref.now at.now) }
{
    put_name(out, memref)?;
    put_subscripts(alloc, out, at)
}

#[tactic(auto, unfolding(affine_ast::specs::Spelling::raw_place_text))]
fn put_raw_place(out: &mut Vec<u8>, memref: &Name, at: &[Name]) -> Result<(), AllocError>
    ensures { OnOk result (out.new.items ≡ out.old.items ++ raw_place_text memref.now at.now) }
{
    put_name(out, memref)?;
    put(out, b"[")?;
    put_names(out, at)?;
    put(out, b"]")
}

/// Two names with a comma between.
#[tactic(auto, unfolding(affine_ast::specs::Spelling::pair_text))]
fn put_name_pair(out: &mut Vec<u8>, left: &Name, right: &Name) -> Result<(), AllocError>
    ensures { OnOk result (out.new.items ≡ out.old.items ++ pair_text (name_text left.now) (name_text right.now)) }
{
    put_name(out, left)?;
    put(out, b", ")?;
    put_name(out, right)
}

#[tactic(auto, unfolding(affine_ast::specs::Spelling::value_text))]
pub fn put_value(
    alloc: Global,
    out: &mut Vec<u8>,
    defined: &Name,
    pick: Pick,
    at: &Access,
) -> Result<(), AllocError>
    ensures { OnOk result (out.new.items ≡ out.old.items ++ value_text defined.now pick at.now) }
{
    put_defined(out, defined, picked(pick))?;
    put_use(alloc, out, at)
}

#[tactic(auto, unfolding(affine_ast::specs::Spelling::load_text))]
pub fn put_load(
    alloc: Global,
    out: &mut Vec<u8>,
    defined: &Name,
    memref: &Name,
    at: &Access,
    ty: &MemrefType,
) -> Result<(), AllocError>
    ensures { OnOk result (out.new.items ≡ out.old.items ++ load_text defined.now memref.now at.now ty.now) }
{
    put_defined(out, defined, b"affine.load ")?;
    put_place(alloc, out, memref, at)?;
    put_typed(alloc, out, ty)
}

#[tactic(auto, unfolding(affine_ast::specs::Spelling::store_text))]
pub fn put_store(
    alloc: Global,
    out: &mut Vec<u8>,
    value: &Name,
    memref: &Name,
    at: &Access,
    ty: &MemrefType,
) -> Result<(), AllocError>
    ensures { OnOk result (out.new.items ≡ out.old.items ++ store_text value.now memref.now at.now ty.now) }
{
    put_named(out, b"affine.store ", value)?;
    put(out, b", ")?;
    put_place(alloc, out, memref, at)?;
    put_typed(alloc, out, ty)
}

#[tactic(auto, unfolding(affine_ast::specs::Spelling::raw_load_text))]
pub fn put_raw_load(
    alloc: Global,
    out: &mut Vec<u8>,
    defined: &Name,
    memref: &Name,
    at: &[Name],
    ty: &MemrefType,
) -> Result<(), AllocError>
    ensures { OnOk result (out.new.items ≡ out.old.items ++ raw_load_text defined.now memref.now at.now ty.now) }
{
    put_defined(out, defined, b"memref.load ")?;
    put_raw_place(out, memref, at)?;
    put_typed(alloc, out, ty)
}

#[tactic(auto, unfolding(affine_ast::specs::Spelling::raw_store_text))]
pub fn put_raw_store(
    alloc: Global,
    out: &mut Vec<u8>,
    value: &Name,
    memref: &Name,
    at: &[Name],
    ty: &MemrefType,
) -> Result<(), AllocError>
    ensures { OnOk result (out.new.items ≡ out.old.items ++ raw_store_text value.now memref.now at.now ty.now) }
{
    put_named(out, b"memref.store ", value)?;
    put(out, b", ")?;
    put_raw_place(out, memref, at)?;
    put_typed(alloc, out, ty)
}

#[tactic(auto, unfolding(affine_ast::specs::Spelling::constant_text))]
pub fn put_constant(
    alloc: Global,
    out: &mut Vec<u8>,
    defined: &Name,
    value: i64,
    ty: Scalar,
) -> Result<(), AllocError>
    ensures { OnOk result (out.new.items ≡ out.old.items ++ constant_text defined.now value ty) }
{
    put_defined(out, defined, b"arith.constant ")?;
    put_signed(alloc, out, value)?;
    put_scalar_typed(out, ty)
}

#[tactic(auto, unfolding(affine_ast::specs::Spelling::binary_text))]
pub fn put_binary(
    out: &mut Vec<u8>,
    defined: &Name,
    op: Op,
    left: &Name,
    right: &Name,
    ty: Scalar,
) -> Result<(), AllocError>
    ensures { OnOk result (out.new.items ≡ out.old.items ++ binary_text defined.now op left.now right.now ty) }
{
    put_defined(out, defined, operation(op))?;
    put_name_pair(out, left, right)?;
    put_scalar_typed(out, ty)
}

/// The type that a cast comes from and the one that it goes to.
#[tactic(auto, unfolding(affine_ast::specs::Spelling::cast_types_text))]
fn put_cast_types(out: &mut Vec<u8>, from: Scalar, to: Scalar) -> Result<(), AllocError>
    ensures { OnOk result (out.new.items ≡ out.old.items ++ cast_types_text from to) }
{
    put_scalar_typed(out, from)?;
    put(out, b" to ")?;
    put_scalar(out, to)
}

#[tactic(auto, unfolding(affine_ast::specs::Spelling::cast_text))]
pub fn put_cast(
    out: &mut Vec<u8>,
    defined: &Name,
    kind: CastKind,
    value: &Name,
    from: Scalar,
    to: Scalar,
) -> Result<(), AllocError>
    ensures { OnOk result (out.new.items ≡ out.old.items ++ cast_text defined.now kind value.now from to) }
{
    put_defined(out, defined, cast(kind))?;
    put_name(out, value)?;
    put_cast_types(out, from, to)
}

#[tactic(auto, unfolding(affine_ast::specs::Spelling::alloc_text))]
pub fn put_alloc(
    alloc: Global,
    out: &mut Vec<u8>,
    defined: &Name,
    ty: &MemrefType,
) -> Result<(), AllocError>
    ensures { OnOk result (out.new.items ≡ out.old.items ++ alloc_text defined.now ty.now) }
{
    put_defined(out, defined, b"memref.alloc()")?;
    put_typed(alloc, out, ty)
}

#[tactic(auto, unfolding(affine_ast::specs::Spelling::dealloc_text))]
pub fn put_dealloc(
    alloc: Global,
    out: &mut Vec<u8>,
    memref: &Name,
    ty: &MemrefType,
) -> Result<(), AllocError>
    ensures { OnOk result (out.new.items ≡ out.old.items ++ dealloc_text memref.now ty.now) }
{
    put_named(out, b"memref.dealloc ", memref)?;
    put_typed(alloc, out, ty)
}

/// The stride and the chunk of a transfer, where it has them.
#[tactic(auto, unfolding(affine_ast::specs::Spelling::stride_text))]
fn put_stride(out: &mut Vec<u8>, stride: &Option<(Name, Name)>) -> Result<(), AllocError>
    ensures { OnOk result (out.new.items ≡ out.old.items ++ stride_text stride.now) }
{
    match stride {
        None => Ok(()),
        Some((stride, chunk)) => {
            put(out, b", ")?;
            put_name_pair(out, stride, chunk)
        }
    }
}

fn put_types(alloc: Global, out: &mut Vec<u8>, types: &[MemrefType]) -> Result<(), AllocError>
    ensures { OnOk result (out.new.items ≡ out.old.items ++ listed memref_text types.now) }
{
    for (place, ty) in types.iter().enumerate() {
        put_comma(out, place)?;
        put_memref(alloc, out, ty)?;
    }
    Ok(())
}

/// The word of a transfer and its first place.
#[tactic(auto, unfolding(affine_ast::specs::Spelling::first_place_text))]
fn put_first_place(
    alloc: Global,
    out: &mut Vec<u8>,
    word: &[u8],
    memref: &Name,
    at: &Access,
) -> Result<(), AllocError>
    ensures { OnOk result (out.new.items ≡ out.old.items ++ first_place_text word.now memref.now at.now) }
{
    put_named(out, word, memref)?;
    put_subscripts(alloc, out, at)
}

/// The second and the third place of a transfer.
#[tactic(auto, unfolding(affine_ast::specs::Spelling::pair_text))]
fn put_other_places(
    alloc: Global,
    out: &mut Vec<u8>,
    to: &Name,
    to_at: &Access,
    tag: &Name,
    tag_at: &Access,
) -> Result<(), AllocError>
    ensures { OnOk result (out.new.items ≡ out.old.items ++ pair_text (place_text to.now to_at.now) (place_text tag.now tag_at.now)) }
{
    put_place(alloc, out, to, to_at)?;
    put(out, b", ")?;
    put_place(alloc, out, tag, tag_at)
}

/// The start of a transfer with its places: source, destination and tag.
#[tactic(auto, unfolding(affine_ast::specs::Spelling::ends_text))]
fn put_ends(
    alloc: Global,
    out: &mut Vec<u8>,
    from: &Name,
    from_at: &Access,
    to: &Name,
    to_at: &Access,
    tag: &Name,
    tag_at: &Access,
) -> Result<(), AllocError>
    ensures { OnOk result (out.new.items ≡ out.old.items ++ ends_text from.now from_at.now to.now to_at.now tag.now tag_at.now) }
{
    put_first_place(alloc, out, b"affine.dma_start ", from, from_at)?;
    put(out, b", ")?;
    put_other_places(alloc, out, to, to_at, tag, tag_at)
}

/// The count of a transfer with its stride, and then the types of its three places.
#[tactic(auto, unfolding(affine_ast::specs::Spelling::amount_text))]
fn put_amount(
    alloc: Global,
    out: &mut Vec<u8>,
    count: &Name,
    stride: &Option<(Name, Name)>,
    types: &[MemrefType],
) -> Result<(), AllocError>
    ensures { OnOk result (out.new.items ≡ out.old.items ++ amount_text count.now stride.now types.now) }
{
    put(out, b", ")?;
    put_name(out, count)?;
    put_stride(out, stride)?;
    put(out, b" : ")?;
    put_types(alloc, out, types)
}

/// The start of a transfer.
pub fn put_start(
    alloc: Global,
    out: &mut Vec<u8>,
    from: &Name,
    from_at: &Access,
    to: &Name,
    to_at: &Access,
    tag: &Name,
    tag_at: &Access,
    count: &Name,
    stride: &Option<(Name, Name)>,
    types: &[MemrefType; 3],
) -> Result<(), AllocError>
    ensures { OnOk result (out.new.items ≡ out.old.items ++ (ends_text from.now from_at.now to.now to_at.now tag.now tag_at.now ++ amount_text count.now stride.now types.now)) }
{
    put_ends(alloc, out, from, from_at, to, to_at, tag, tag_at)?;
    put_amount(alloc, out, count, stride, types)
}

#[tactic(auto, unfolding(affine_ast::specs::Spelling::wait_text))]
pub fn put_wait(
    alloc: Global,
    out: &mut Vec<u8>,
    tag: &Name,
    tag_at: &Access,
    count: &Name,
    ty: &MemrefType,
) -> Result<(), AllocError>
    ensures { OnOk result (out.new.items ≡ out.old.items ++ wait_text tag.now tag_at.now count.now ty.now) }
{
    put_first_place(alloc, out, b"affine.dma_wait ", tag, tag_at)?;
    put(out, b", ")?;
    put_name(out, count)?;
    put_typed(alloc, out, ty)
}
