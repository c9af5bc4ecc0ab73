// The intervals of the results of maps, and the least turn and the last end of loops.
ghost use Rattle.std.specs.Prelude.{◌≡◌, IfOk};
ghost use Rattle.affine_expr.specs.Bounded.{range_at, ranges};
ghost use Rattle.affine_ast.specs.Intervals.{ranges_at, picked_range, first_turn, last_end};
ghost use Rattle.module_work.specs.Table.{ranges_of};
ghost use Rattle.module_work.specs.Workable.{WorkableAccess, WorkableBound};

use crate::ranges::{Ranges, range_of, ranges_of_all};
use affine_ast::{Access, Bound, Name, Pick};
use affine_expr::Interval;
use affine_rules::parted_intervals;
use affine_verify::{greatest_least, intervals_at, least_greatest, picked_of};
use std::alloc::{AllocError, Global};

fn results_of<'a>(
    alloc: Global,
    table: &Ranges<'a>,
    at: &'a Access,
) -> Result<Vec<Interval>, AllocError>
    requires { WorkableAccess (ranges_of table.now.entries) at.now }
    ensures { IfOk result (λ found. ranges found.items ≡ ranges_at (ranges_of table.now.entries) at.now) }
{
    let operands = ranges_of_all(alloc, table, at.operands.as_slice())?;
    let (dims, syms) = parted_intervals(at.map.dims, operands.as_slice());
    let found = intervals_at(alloc, at.map.results.as_slice(), dims, syms)?;
    Ok(found)
}

/// The least turn that a lower bound allows.
#[tactic(auto, unfolding(affine_ast::specs::Intervals::first_turn))]
pub fn first_turn<'a>(
    alloc: Global,
    table: &Ranges<'a>,
    bound: &'a Bound,
) -> Result<i64, AllocError>
    requires { WorkableBound (ranges_of table.now.entries) bound.now }
    ensures { IfOk result (λ turn. turn ≡ first_turn (ranges_of table.now.entries) bound.now) }
{
    match bound {
        Bound::Int(value) => Ok(*value),
        Bound::Value(name) => Ok(range_of(table, name).least),
        Bound::Map(at) => {
            let results = results_of(alloc, table, at)?;
            Ok(greatest_least(results.as_slice()))
        }
    }
}

/// The last end that an upper bound allows.
#[tactic(auto, unfolding(affine_ast::specs::Intervals::last_end))]
pub fn last_end<'a>(alloc: Global, table: &Ranges<'a>, bound: &'a Bound) -> Result<i64, AllocError>
    requires { WorkableBound (ranges_of table.now.entries) bound.now }
    ensures { IfOk result (λ end. end ≡ last_end (ranges_of table.now.entries) bound.now) }
{
    match bound {
        Bound::Int(value) => Ok(*value),
        Bound::Value(name) => Ok(range_of(table, name).greatest),
        Bound::Map(at) => {
            let results = results_of(alloc, table, at)?;
            Ok(least_greatest(results.as_slice()))
        }
    }
}

/// The interval of the result of `affine.apply`, `min` or `max`.
pub fn picked<'a>(
    alloc: Global,
    table: &Ranges<'a>,
    pick: Pick,
    at: &'a Access,
) -> Result<Interval, AllocError>
    requires { WorkableAccess (ranges_of table.now.entries) at.now }
    ensures { IfOk result (λ found. range_at found ≡ picked_range pick (ranges_at (ranges_of table.now.entries) at.now)) }
{
    let results = results_of(alloc, table, at)?;
    Ok(picked_of(pick, results.as_slice()))
}
