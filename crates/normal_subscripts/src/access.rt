// Subscripts with their dimensions in another order.
ghost use Rattle.std.specs.Prelude.{◌≡◌, ◌++◌, ◌<◌, ◌^◌, length, drop, map, IfOk, slice_index_or};
ghost use Rattle.placement_texts.specs.Normal.{index_of, renumbered, no_name, normal};

use crate::numbered::renumbered;
use crate::order::order_of;
use affine_ast::{Access, Name, Text};
use affine_expr::{Expr, Map};
use sqlite_items::Items;
use std::alloc::{AllocError, Global};

/// The results, over an order of the dimensions.
fn results_in(alloc: Global, exprs: &[Expr], order: &[u32]) -> Result<Items<Expr>, AllocError>
    requires { length order.now < 2 ^ 32 }
    ensures { IfOk result (λ made. made ≡ map (renumbered (λ n. index_of n order.now)) exprs.now) }
{
    let mut made = Items::new(alloc);
    for expr in exprs {
        made.push(renumbered(alloc, expr, order)?)?;
    }
    Ok(made)
}

/// The operand of a number, and a name without letters where there is none.
fn operand_at(alloc: Global, operands: &[Name], number: u32) -> Result<Name, AllocError>
    ensures { IfOk result (λ name. name ≡ slice_index_or operands.now number no_name) }
{
    match operands.get(number as usize) {
        Some(name) => name.copy(alloc),
        None => Ok(Name {
            text: Text::from_string(String::new(alloc)),
            made: false,
        }),
    }
}

/// The operands of an order.
fn picked(alloc: Global, operands: &[Name], order: &[u32]) -> Result<Items<Name>, AllocError>
    ensures { IfOk result (λ names. names ≡ map (λ n. slice_index_or operands.now n no_name) order.now) }
{
    let mut names = Items::new(alloc);
    for number in order {
        names.push(operand_at(alloc, operands, *number)?)?;
    }
    Ok(names)
}

fn copies(alloc: Global, names: &[Name]) -> Result<Items<Name>, AllocError>
    ensures { IfOk result (λ copies. copies ≡ names.now) }
{
    let mut copies = Items::new(alloc);
    for name in names {
        copies.push(name.copy(alloc)?)?;
    }
    Ok(copies)
}

/// The operands of an order, and then those of the symbols.
fn operands_in(
    alloc: Global,
    operands: &[Name],
    dims: usize,
    order: &[u32],
) -> Result<Items<Name>, AllocError>
    ensures { IfOk result (λ names. names ≡ map (λ n. slice_index_or operands.now n no_name) order.now ++ drop dims operands.now) }
{
    let first = dims.min(operands.len());
    let mut names = picked(alloc, operands, order)?;
    names.append(copies(alloc, &operands[first..])?)?;
    Ok(names)
}

/// An access with its dimensions numbered by first appearance.
///
/// # Errors
///
/// `AllocError`, for want of memory, and where the order would have 2^32 dimensions or more.
pub fn normal(alloc: Global, at: &Access) -> Result<Access, AllocError>
    ensures { IfOk result (λ made. made ≡ normal at.now) }
{
    let exprs = at.map.results.as_slice();
    let order = order_of(alloc, exprs)?;
    if order.len() > u32::MAX as usize {
        return Err(AllocError);
    }
    let results = results_in(alloc, exprs, order.as_slice())?;
    let operands = operands_in(
        alloc,
        at.operands.as_slice(),
        at.map.dims as usize,
        order.as_slice(),
    )?;
    Ok(Access {
        map: Map {
            dims: order.len() as u32,
            syms: at.map.syms,
            results,
        },
        operands,
    })
}
