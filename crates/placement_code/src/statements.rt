// The statements round the loop of a placement.
ghost use Rattle.std.specs.Prelude.{◌≡◌, ◌+◌, ◌*◌, ◌-◌, ◌<◌, ◌≤◌, pos, IfOk, [], ◌∷◌};
ghost use Rattle.affine_ast.specs.declared.stmt.What as what;
ghost use Rattle.affine_ast.specs.declared.types.Bound.TheVariants as bound;
ghost use Rattle.made_names.specs.Made.{made_name};
ghost use Rattle.placement_texts.specs.Template.{slow_type, fast_type, tag_type, tag_at_zero, fast_name, tag_name, in_value, out_value, in_turn, out_turn, begins, slow_at_turns, fast_at_turns, slow_at_places, fast_at_zeros};
ghost use Rattle.placement_code.specs.Placed.{how_of, placement_of, MayBeWritten};
ghost use Rattle.placement_code.specs.Small.{AreWell};
ghost use Rattle.placement_lists.specs.Statements.{made, loops, copy_in, copy_out, allocs, deallocs};

use crate::accesses::{
    fast_at_turns, fast_at_zeros, fast_type, slow_at_places, slow_at_turns, slow_type, tag_at_zero,
    tag_type,
};
use crate::placement::{Dimension, How, Placement};
use crate::places::statement;
use affine_ast::{Bound, Name, Stmt, What};
use made_names::made_name;
use sqlite_items::Items;
use std::alloc::{AllocError, Global};

// ---- copy loops

/// A loop over the elements of a dimension.
fn looped(
    alloc: Global,
    turn: Name,
    extent: u32,
    body: Items<Stmt>,
) -> Result<Items<Stmt>, AllocError>
    ensures { IfOk result (λ stmts. stmts ≡ made (what.For turn (bound.Int (pos 0)) (bound.Int (pos extent)) (pos 1) body) ∷ []) }
{
    let mut stmts = Items::new(alloc);
    stmts.push(statement(What::For {
        var: turn,
        lower: Bound::Int(0),
        upper: Bound::Int(extent as i64),
        step: 1,
        body,
    }))?;
    Ok(stmts)
}

/// A loop over the elements of the dimension of a number.
fn loop_over(
    alloc: Global,
    number: u32,
    slot: u32,
    dim_number: u32,
    dim: &Dimension,
    body: Items<Stmt>,
) -> Result<Items<Stmt>, AllocError>
    requires number { number < 262144 }
    requires slot { slot ≤ 10 }
    requires few { dim_number < 7 }
    ensures { IfOk result (λ stmts. stmts ≡ made (what.For (made_name number (slot + 4 * dim_number)) (bound.Int (pos 0)) (bound.Int (pos dim.now.extent)) (pos 1) body) ∷ []) }
{
    let turn = made_name(alloc, number, slot + 4 * dim_number)?;
    looped(alloc, turn, dim.extent, body)
}

/// Loops over the elements of the box, inside one another.
#[tactic(auto, using(crate::proofs::Looped::loops_end))]
fn all_loops(
    alloc: Global,
    number: u32,
    slot: u32,
    dims: &[Dimension],
    inner: Items<Stmt>,
) -> Result<Items<Stmt>, AllocError>
    requires number { number < 262144 }
    requires slot { slot ≤ 10 }
    requires dims { AreWell dims.now }
    ensures { IfOk result (λ stmts. stmts ≡ loops (λ d. made_name number (slot + 4 * d)) 0 dims.now inner) }
{
    let mut stmts = inner;
    let mut left = dims.len() as u32;
    while left > 0 {
        left -= 1;
        stmts = loop_over(alloc, number, slot, left, &dims[left as usize], stmts)?;
    }
    Ok(stmts)
}

/// A load from the memref at a turn of the copy loops.
fn load_slow(alloc: Global, placed: &Placement) -> Result<Stmt, AllocError>
    requires { MayBeWritten placed.now }
    ensures { let p = placement_of placed.now in IfOk result (λ stmt. stmt ≡ made (what.Load (in_value p.name) p.memref (slow_at_turns (in_turn p.name) (begins p)) (slow_type p))) }
{
    let dims = placed.dims.as_slice();
    Ok(statement(What::Load {
        result: made_name(alloc, placed.number, 5)?,
        memref: placed.memref.copy(alloc)?,
        at: slow_at_turns(alloc, placed.number, 9, dims)?,
        ty: slow_type(alloc, dims, placed.element)?,
    }))
}

/// A store to the fast memref at a turn of the copy loops.
fn store_fast(alloc: Global, placed: &Placement) -> Result<Stmt, AllocError>
    requires { MayBeWritten placed.now }
    ensures { let p = placement_of placed.now in IfOk result (λ stmt. stmt ≡ made (what.Store (in_value p.name) (fast_name p.name) (fast_at_turns (in_turn p.name) (begins p)) (fast_type p))) }
{
    let dims = placed.dims.as_slice();
    Ok(statement(What::Store {
        value: made_name(alloc, placed.number, 5)?,
        memref: made_name(alloc, placed.number, 0)?,
        at: fast_at_turns(alloc, placed.number, 9, dims)?,
        ty: fast_type(alloc, dims, placed.element)?,
    }))
}

/// A load from the fast memref at a turn of the copy loops.
fn load_fast(alloc: Global, placed: &Placement) -> Result<Stmt, AllocError>
    requires { MayBeWritten placed.now }
    ensures { let p = placement_of placed.now in IfOk result (λ stmt. stmt ≡ made (what.Load (out_value p.name) (fast_name p.name) (fast_at_turns (out_turn p.name) (begins p)) (fast_type p))) }
{
    let dims = placed.dims.as_slice();
    Ok(statement(What::Load {
        result: made_name(alloc, placed.number, 6)?,
        memref: made_name(alloc, placed.number, 0)?,
        at: fast_at_turns(alloc, placed.number, 10, dims)?,
        ty: fast_type(alloc, dims, placed.element)?,
    }))
}

/// A store to the memref at a turn of the copy loops.
fn store_slow(alloc: Global, placed: &Placement) -> Result<Stmt, AllocError>
    requires { MayBeWritten placed.now }
    ensures { let p = placement_of placed.now in IfOk result (λ stmt. stmt ≡ made (what.Store (out_value p.name) p.memref (slow_at_turns (out_turn p.name) (begins p)) (slow_type p))) }
{
    let dims = placed.dims.as_slice();
    Ok(statement(What::Store {
        value: made_name(alloc, placed.number, 6)?,
        memref: placed.memref.copy(alloc)?,
        at: slow_at_turns(alloc, placed.number, 10, dims)?,
        ty: slow_type(alloc, dims, placed.element)?,
    }))
}

/// Two statements.
pub(crate) fn two(alloc: Global, first: Stmt, second: Stmt) -> Result<Items<Stmt>, AllocError>
    ensures { IfOk result (λ stmts. stmts ≡ first ∷ second ∷ []) }
{
    let mut stmts = Items::new(alloc);
    stmts.push(first)?;
    stmts.push(second)?;
    Ok(stmts)
}

/// The loops that copy the box into fast memory.
pub(crate) fn copy_in(alloc: Global, placed: &Placement) -> Result<Items<Stmt>, AllocError>
    requires { MayBeWritten placed.now }
    ensures { IfOk result (λ stmts. stmts ≡ copy_in (placement_of placed.now)) }
{
    let load = load_slow(alloc, placed)?;
    let inner = two(alloc, load, store_fast(alloc, placed)?)?;
    all_loops(alloc, placed.number, 9, placed.dims.as_slice(), inner)
}

/// The loops that copy it back.
pub(crate) fn copy_out(alloc: Global, placed: &Placement) -> Result<Items<Stmt>, AllocError>
    requires { MayBeWritten placed.now }
    ensures { IfOk result (λ stmts. stmts ≡ copy_out (placement_of placed.now)) }
{
    let load = load_fast(alloc, placed)?;
    let inner = two(alloc, load, store_slow(alloc, placed)?)?;
    all_loops(alloc, placed.number, 10, placed.dims.as_slice(), inner)
}

// ---- the memrefs

/// The allocation of the fast memref.
fn fast_alloc(alloc: Global, placed: &Placement) -> Result<Stmt, AllocError>
    requires { placed.now.number < 262144 }
    ensures { let p = placement_of placed.now in IfOk result (λ stmt. stmt ≡ made (what.Alloc (fast_name p.name) (fast_type p))) }
{
    Ok(statement(What::Alloc {
        result: made_name(alloc, placed.number, 0)?,
        ty: fast_type(alloc, placed.dims.as_slice(), placed.element)?,
    }))
}

/// The allocation of the tags.
fn tag_alloc(alloc: Global, number: u32) -> Result<Stmt, AllocError>
    requires { number < 262144 }
    ensures { IfOk result (λ stmt. stmt ≡ made (what.Alloc (tag_name (made_name number)) tag_type)) }
{
    Ok(statement(What::Alloc {
        result: made_name(alloc, number, 1)?,
        ty: tag_type(alloc)?,
    }))
}

/// The release of the fast memref.
fn fast_dealloc(alloc: Global, placed: &Placement) -> Result<Stmt, AllocError>
    requires { placed.now.number < 262144 }
    ensures { let p = placement_of placed.now in IfOk result (λ stmt. stmt ≡ made (what.Dealloc (fast_name p.name) (fast_type p))) }
{
    Ok(statement(What::Dealloc {
        memref: made_name(alloc, placed.number, 0)?,
        ty: fast_type(alloc, placed.dims.as_slice(), placed.element)?,
    }))
}

/// The release of the tags.
fn tag_dealloc(alloc: Global, number: u32) -> Result<Stmt, AllocError>
    requires { number < 262144 }
    ensures { IfOk result (λ stmt. stmt ≡ made (what.Dealloc (tag_name (made_name number)) tag_type)) }
{
    Ok(statement(What::Dealloc {
        memref: made_name(alloc, number, 1)?,
        ty: tag_type(alloc)?,
    }))
}

pub(crate) fn allocations(alloc: Global, placed: &Placement) -> Result<Items<Stmt>, AllocError>
    requires { placed.now.number < 262144 }
    ensures { IfOk result (λ stmts. stmts ≡ allocs (placement_of placed.now) (how_of placed.now.how)) }
{
    let mut stmts = Items::new(alloc);
    stmts.push(fast_alloc(alloc, placed)?)?;
    match placed.how {
        How::Copies => Ok(stmts),
        How::Transfers(_) => {
            stmts.push(tag_alloc(alloc, placed.number)?)?;
            Ok(stmts)
        }
    }
}

pub(crate) fn releases(alloc: Global, placed: &Placement) -> Result<Items<Stmt>, AllocError>
    requires { placed.now.number < 262144 }
    ensures { IfOk result (λ stmts. stmts ≡ deallocs (placement_of placed.now) (how_of placed.now.how)) }
{
    let mut stmts = Items::new(alloc);
    stmts.push(fast_dealloc(alloc, placed)?)?;
    match placed.how {
        How::Copies => Ok(stmts),
        How::Transfers(_) => {
            stmts.push(tag_dealloc(alloc, placed.number)?)?;
            Ok(stmts)
        }
    }
}
