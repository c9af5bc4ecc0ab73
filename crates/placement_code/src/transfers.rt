// The transfers of a placement, and all of its statements.
ghost use Rattle.std.specs.Prelude.{◌≡◌, ◌*◌, ◌-◌, ◌<◌, ◌++◌, ◌^◌, pos, min, IfOk, OnOk, [], ◌∷◌, Some, None, Option};
ghost use Rattle.affine_ast.specs.declared.stmt.What as what;
ghost use Rattle.affine_ast.specs.declared.types.Scalar.TheVariants.{Index};
ghost use Rattle.affine_ast.specs.Sizes.{product};
ghost use Rattle.made_names.specs.Made.{made_name};
ghost use Rattle.placement_texts.specs.Template.{dim_extents, slow_type, fast_type, tag_type, tag_at_zero, tag_name, count_name, slow_at_places, fast_at_zeros};
ghost use Rattle.placement_code.specs.Placed.{how_of, placement_of, MayBeWritten, numbers_of, strides_of};
ghost use Rattle.placement_lists.specs.Statements.{made, wait, start_in, start_out, constants, read_in, write_out, where_so, before, behind};

use crate::accesses::{fast_at_zeros, fast_type, slow_at_places, slow_type, tag_at_zero, tag_type};
use crate::placement::{Dimension, How, Placement};
use crate::places::{places, statement};
use crate::statements::{allocations, copy_in, copy_out, releases, two};
use affine_ast::{Access, MemrefType, Name, Scalar, Stmt, What};
use made_names::made_name;
use sqlite_items::Items;
use std::alloc::{AllocError, Global};

// ---- constants

/// A number of elements for each turn of a dimension, and the greatest number where they are more.
fn grown(count: u64, dim: &Dimension) -> u64
    ensures { result ≡ min (count * dim.now.extent) (2 ^ 64 - 1) }
{
    count.saturating_mul(dim.extent as u64)
}

/// The elements of a box, and the greatest number where they are more.
fn volume(dims: &[Dimension]) -> u64
    ensures { result ≡ min (product (dim_extents dims.now)) (2 ^ 64 - 1) }
{
    let mut count: u64 = 1;
    for dim in dims {
        count = grown(count, dim);
    }
    count
}

/// A constant of type `index`.
fn constant(alloc: Global, number: u32, slot: u32, value: u64) -> Result<Stmt, AllocError>
    requires number { number < 262144 }
    requires slot { slot < 63 }
    requires value { value < 2 ^ 63 }
    ensures { IfOk result (λ stmt. stmt ≡ made (what.Constant (made_name number slot) (pos value) Index)) }
{
    Ok(statement(What::Constant {
        result: made_name(alloc, number, slot)?,
        value: value as i64,
        ty: Scalar::Index,
    }))
}

/// The stride and the chunk, where there are several chunks.
fn chunk_numbers(
    alloc: Global,
    number: u32,
    chunks: Option<(u32, u32)>,
    stmts: &mut Items<Stmt>,
) -> Result<(), AllocError>
    requires number { number < 262144 }
    ensures { OnOk result (stmts.new ≡ stmts.old ++ numbers_of number chunks) }
{
    let Some((stride, chunk)) = chunks else {
        return Ok(());
    };
    stmts.push(constant(alloc, number, 3, stride as u64)?)?;
    stmts.push(constant(alloc, number, 4, chunk as u64)?)
}

/// The constants that a placement's transfers use.
fn numbers(alloc: Global, placed: &Placement) -> Result<Items<Stmt>, AllocError>
    requires { MayBeWritten placed.now }
    ensures { IfOk result (λ stmts. stmts ≡ constants (placement_of placed.now) (how_of placed.now.how)) }
{
    let mut stmts = Items::new(alloc);
    match placed.how {
        How::Copies => Ok(stmts),
        How::Transfers(chunks) => {
            let count = volume(placed.dims.as_slice());
            stmts.push(constant(alloc, placed.number, 2, count)?)?;
            chunk_numbers(alloc, placed.number, chunks, &mut stmts)?;
            Ok(stmts)
        }
    }
}

// ---- transfers

/// The wait for a transfer.
fn waits(alloc: Global, number: u32) -> Result<Stmt, AllocError>
    requires { number < 262144 }
    ensures { IfOk result (λ stmt. stmt ≡ made (what.Wait (tag_name (made_name number)) tag_at_zero (count_name (made_name number)) tag_type)) }
{
    Ok(statement(What::Wait {
        tag: made_name(alloc, number, 1)?,
        tag_at: tag_at_zero(alloc)?,
        count: made_name(alloc, number, 2)?,
        ty: tag_type(alloc)?,
    }))
}

/// The names of the stride and the chunk.
fn strides(
    alloc: Global,
    number: u32,
    chunks: Option<(u32, u32)>,
) -> Result<Option<(Name, Name)>, AllocError>
    requires { number < 262144 }
    ensures { IfOk result (λ names. names ≡ strides_of number chunks) }
{
    if chunks.is_none() {
        return Ok(None);
    }
    let stride = made_name(alloc, number, 3)?;
    Ok(Some((stride, made_name(alloc, number, 4)?)))
}

/// The types of a transfer: those of its ends, and of its tags.
fn types_of(alloc: Global, from: MemrefType, to: MemrefType) -> Result<[MemrefType; 3], AllocError>
    ensures { IfOk result (λ types. types ≡ from ∷ to ∷ tag_type ∷ []) }
{
    Ok([from, to, tag_type(alloc)?])
}

/// The ends of a transfer: from where, and to where.
#[derive(Drop)]
struct Ends {
    from: Name,
    from_at: Access,
    to: Name,
    to_at: Access,
}

/// The start of a transfer.
fn start(
    alloc: Global,
    number: u32,
    chunks: Option<(u32, u32)>,
    ends: Ends,
    types: [MemrefType; 3],
) -> Result<Stmt, AllocError>
    requires { number < 262144 }
    ensures { IfOk result (λ stmt. stmt ≡ made (what.Start ends.from ends.from_at ends.to ends.to_at (tag_name (made_name number)) tag_at_zero (count_name (made_name number)) (strides_of number chunks) types)) }
{
    let tag = made_name(alloc, number, 1)?;
    let count = made_name(alloc, number, 2)?;
    let stride = strides(alloc, number, chunks)?;
    Ok(statement(What::Start {
        from: ends.from,
        from_at: ends.from_at,
        to: ends.to,
        to_at: ends.to_at,
        tag,
        tag_at: tag_at_zero(alloc)?,
        count,
        stride,
        types,
    }))
}

/// The transfer that fills the fast memref, and its wait.
fn starts_in(
    alloc: Global,
    placed: &Placement,
    chunks: Option<(u32, u32)>,
) -> Result<Items<Stmt>, AllocError>
    requires { MayBeWritten placed.now }
    ensures { IfOk result (λ stmts. stmts ≡ start_in (placement_of placed.now) chunks) }
{
    let dims = placed.dims.as_slice();
    let slow = slow_type(alloc, dims, placed.element)?;
    let types = types_of(alloc, slow, fast_type(alloc, dims, placed.element)?)?;
    let ends = Ends {
        from: placed.memref.copy(alloc)?,
        from_at: slow_at_places(alloc, placed.number, dims)?,
        to: made_name(alloc, placed.number, 0)?,
        to_at: fast_at_zeros(alloc, dims)?,
    };
    let starting = start(alloc, placed.number, chunks, ends, types)?;
    two(alloc, starting, waits(alloc, placed.number)?)
}

/// The transfer that writes it back, and its wait.
fn starts_out(
    alloc: Global,
    placed: &Placement,
    chunks: Option<(u32, u32)>,
) -> Result<Items<Stmt>, AllocError>
    requires { MayBeWritten placed.now }
    ensures { IfOk result (λ stmts. stmts ≡ start_out (placement_of placed.now) chunks) }
{
    let dims = placed.dims.as_slice();
    let fast = fast_type(alloc, dims, placed.element)?;
    let types = types_of(alloc, fast, slow_type(alloc, dims, placed.element)?)?;
    let ends = Ends {
        from: made_name(alloc, placed.number, 0)?,
        from_at: fast_at_zeros(alloc, dims)?,
        to: placed.memref.copy(alloc)?,
        to_at: slow_at_places(alloc, placed.number, dims)?,
    };
    let starting = start(alloc, placed.number, chunks, ends, types)?;
    two(alloc, starting, waits(alloc, placed.number)?)
}

// ---- all of it

fn reads_in(alloc: Global, placed: &Placement) -> Result<Items<Stmt>, AllocError>
    requires { MayBeWritten placed.now }
    ensures { IfOk result (λ stmts. stmts ≡ where_so (placement_of placed.now) placed.now.reads (read_in (placement_of placed.now) (how_of placed.now.how))) }
{
    if !placed.reads {
        return Ok(Items::new(alloc));
    }
    match placed.how {
        How::Copies => copy_in(alloc, placed),
        How::Transfers(chunks) => starts_in(alloc, placed, chunks),
    }
}

fn writes_out(alloc: Global, placed: &Placement) -> Result<Items<Stmt>, AllocError>
    requires { MayBeWritten placed.now }
    ensures { IfOk result (λ stmts. stmts ≡ where_so (placement_of placed.now) placed.now.writes (write_out (placement_of placed.now) (how_of placed.now.how))) }
{
    if !placed.writes {
        return Ok(Items::new(alloc));
    }
    match placed.how {
        How::Copies => copy_out(alloc, placed),
        How::Transfers(chunks) => starts_out(alloc, placed, chunks),
    }
}

/// What stands before the loop of a placement.
///
/// # Errors
///
/// `AllocError`, for want of memory alone.
pub fn before(alloc: Global, placed: &Placement) -> Result<Items<Stmt>, AllocError>
    requires { MayBeWritten placed.now }
    ensures { IfOk result (λ stmts. stmts ≡ before (placement_of placed.now)) }
{
    let mut last = allocations(alloc, placed)?;
    last.append(reads_in(alloc, placed)?)?;
    let mut middle = numbers(alloc, placed)?;
    middle.append(last)?;
    let mut stmts = places(alloc, placed.number, placed.dims.as_slice())?;
    stmts.append(middle)?;
    Ok(stmts)
}

/// What stands behind it.
///
/// # Errors
///
/// `AllocError`, for want of memory alone.
pub fn behind(alloc: Global, placed: &Placement) -> Result<Items<Stmt>, AllocError>
    requires { MayBeWritten placed.now }
    ensures { IfOk result (λ stmts. stmts ≡ behind (placement_of placed.now)) }
{
    let mut stmts = writes_out(alloc, placed)?;
    stmts.append(releases(alloc, placed)?)?;
    Ok(stmts)
}
