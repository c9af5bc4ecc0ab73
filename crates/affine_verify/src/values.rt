// The intervals of the results of maps, of loop variables and of values.
ghost use Rattle.std.specs.Prelude.{◌≡◌, ◌&&◌, pos, ◌-ℤ◌, true, map, length, IfOk};
ghost use Rattle.std.specs.Int.{int_min, int_max};
ghost use Rattle.std.specs.List.{list_all};
ghost use Rattle.affine_expr.specs.Bounded.{range_at, ranges};
ghost use Rattle.affine_expr.specs.Pure.{is_pure, has_leaves_below};
ghost use Rattle.affine_expr.specs.Spread.{range_of, Range};
ghost use Rattle.affine_ast.specs.Intervals.{ranges_at, over_all, picked_range, first_turn, last_end, turn_range};
ghost use Rattle.affine_ast.specs.Scope.{ranges_in};
ghost use Rattle.affine_ast.specs.Rules.{map_fits, access_pure, has_interval, access_bounded, bound_fits, bound_pure, bound_bounded};
ghost use Rattle.affine_rules.specs.Scoped.{scope_of};

use affine_ast::{Access, Bound, Name, Pick};
use affine_expr::{Expr, Interval};
use affine_rules::{Names, interval_of, intervals_of, parted_intervals};
use std::alloc::{AllocError, Global};

/// The interval of an expression that has one.
#[tactic(auto, using(crate::proofs::Results::interval_there))]
fn interval_at(expr: &Expr, dims: &[Interval], syms: &[Interval]) -> Interval
    requires pure { is_pure expr.now ≡ true }
    requires leaves { has_leaves_below (length dims.now) (length syms.now) expr.now ≡ true }
    requires bounded { has_interval (ranges dims.now) (ranges syms.now) expr.now ≡ true }
    ensures { range_at result ≡ range_of (ranges dims.now) (ranges syms.now) expr.now }
{
    match expr.interval(dims, syms) {
        Some(interval) => interval,
        None => Interval {
            least: 0,
            greatest: 0,
        },
    }
}

/// The intervals of the results of a map, each of which has one where its operands lie in these.
pub fn intervals_at(
    alloc: Global,
    exprs: &[Expr],
    dims: &[Interval],
    syms: &[Interval],
) -> Result<Vec<Interval>, AllocError>
    requires pure { list_all is_pure exprs.now ≡ true }
    requires leaves { list_all (has_leaves_below (length dims.now) (length syms.now)) exprs.now ≡ true }
    requires bounded { list_all (has_interval (ranges dims.now) (ranges syms.now)) exprs.now ≡ true }
    ensures { IfOk result (λ found. ranges found.items ≡ map (range_of (ranges dims.now) (ranges syms.now)) exprs.now) }
{
    let mut intervals = Vec::new(alloc);
    for expr in exprs {
        intervals.push(interval_at(expr, dims, syms))?;
    }
    Ok(intervals)
}

/// The intervals of a map's results.
pub(crate) fn results_of<'a>(
    alloc: Global,
    names: &Names<'a>,
    at: &'a Access,
) -> Result<Vec<Interval>, AllocError>
    requires fits { map_fits at.now ≡ true }
    requires pure { access_pure at.now ≡ true }
    requires bounded { access_bounded (scope_of names.now.entries) at.now ≡ true }
    ensures { IfOk result (λ found. ranges found.items ≡ ranges_at (ranges_in (scope_of names.now.entries)) at.now) }
{
    let operands = intervals_of(alloc, names, at.operands.as_slice())?;
    let (dims, syms) = parted_intervals(at.map.dims, operands.as_slice());
    let found = intervals_at(alloc, at.map.results.as_slice(), dims, syms)?;
    Ok(found)
}

/// The greatest of the least values; 0 where there are none.
pub fn greatest_least(intervals: &[Interval]) -> i64
    ensures { result ≡ over_all int_max (map (λ (r : Range). r.least) (ranges intervals.now)) }
{
    match intervals {
        [] => 0,
        [first, rest @ ..] => {
            let mut found = first.least;
            for interval in rest {
                found = found.max(interval.least);
            }
            found
        }
    }
}

fn least_least(intervals: &[Interval]) -> i64
    ensures { result ≡ over_all int_min (map (λ (r : Range). r.least) (ranges intervals.now)) }
{
    match intervals {
        [] => 0,
        [first, rest @ ..] => {
            let mut found = first.least;
            for interval in rest {
                found = found.min(interval.least);
            }
            found
        }
    }
}

fn greatest_greatest(intervals: &[Interval]) -> i64
    ensures { result ≡ over_all int_max (map (λ (r : Range). r.greatest) (ranges intervals.now)) }
{
    match intervals {
        [] => 0,
        [first, rest @ ..] => {
            let mut found = first.greatest;
            for interval in rest {
                found = found.max(interval.greatest);
            }
            found
        }
    }
}

/// The least of the greatest values; 0 where there are none.
pub fn least_greatest(intervals: &[Interval]) -> i64
    ensures { result ≡ over_all int_min (map (λ (r : Range). r.greatest) (ranges intervals.now)) }
{
    match intervals {
        [] => 0,
        [first, rest @ ..] => {
            let mut found = first.greatest;
            for interval in rest {
                found = found.min(interval.greatest);
            }
            found
        }
    }
}

#[tactic(auto, unfolding(affine_ast::specs::Intervals::first_turn))]
fn first_turn<'a>(alloc: Global, names: &Names<'a>, bound: &'a Bound) -> Result<i64, AllocError>
    requires fits { bound_fits bound.now ≡ true }
    requires pure { bound_pure bound.now ≡ true }
    requires bounded { bound_bounded (scope_of names.now.entries) bound.now ≡ true }
    ensures { IfOk result (λ turn. turn ≡ first_turn (ranges_in (scope_of names.now.entries)) bound.now) }
{
    match bound {
        Bound::Int(value) => Ok(*value),
        Bound::Value(name) => Ok(interval_of(names, name).least),
        Bound::Map(at) => {
            let results = results_of(alloc, names, at)?;
            Ok(greatest_least(results.as_slice()))
        }
    }
}

#[tactic(auto, unfolding(affine_ast::specs::Intervals::last_end))]
fn last_end<'a>(alloc: Global, names: &Names<'a>, bound: &'a Bound) -> Result<i64, AllocError>
    requires fits { bound_fits bound.now ≡ true }
    requires pure { bound_pure bound.now ≡ true }
    requires bounded { bound_bounded (scope_of names.now.entries) bound.now ≡ true }
    ensures { IfOk result (λ end. end ≡ last_end (ranges_in (scope_of names.now.entries)) bound.now) }
{
    match bound {
        Bound::Int(value) => Ok(*value),
        Bound::Value(name) => Ok(interval_of(names, name).greatest),
        Bound::Map(at) => {
            let results = results_of(alloc, names, at)?;
            Ok(least_greatest(results.as_slice()))
        }
    }
}

/// The interval of a loop's variable that begins at the least turn and ends before `end`.
pub fn turns(least: i64, end: i64) -> Interval
    ensures { range_at result ≡ turn_range least end }
{
    if least < end {
        Interval {
            least,
            greatest: end - 1,
        }
    } else {
        Interval {
            least,
            greatest: least,
        }
    }
}

/// The interval of a loop's variable.
pub(crate) fn turn_interval<'a>(
    alloc: Global,
    names: &Names<'a>,
    lower: &'a Bound,
    upper: &'a Bound,
) -> Result<Interval, AllocError>
    requires fits { (bound_fits lower.now && bound_fits upper.now) ≡ true }
    requires lower_pure { bound_pure lower.now ≡ true }
    requires upper_pure { bound_pure upper.now ≡ true }
    requires bounded { (bound_bounded (scope_of names.now.entries) lower.now && bound_bounded (scope_of names.now.entries) upper.now) ≡ true }
    ensures { let rho = ranges_in (scope_of names.now.entries) in IfOk result (λ turns. range_at turns ≡ turn_range (first_turn rho lower.now) (last_end rho upper.now)) }
{
    let least = first_turn(alloc, names, lower)?;
    let end = last_end(alloc, names, upper)?;
    Ok(turns(least, end))
}

/// The interval of the result that `affine.apply`, `min` or `max` picks of results in these.
pub fn picked_of(pick: Pick, intervals: &[Interval]) -> Interval
    ensures { range_at result ≡ picked_range pick (ranges intervals.now) }
{
    match pick {
        Pick::Apply => match intervals {
            [] => Interval {
                least: 0,
                greatest: 0,
            },
            [first, ..] => *first,
        },
        Pick::Min => Interval {
            least: least_least(intervals),
            greatest: least_greatest(intervals),
        },
        Pick::Max => Interval {
            least: greatest_least(intervals),
            greatest: greatest_greatest(intervals),
        },
    }
}

/// The interval of the result of `affine.apply`, `min` or `max`.
pub(crate) fn picked<'a>(
    alloc: Global,
    names: &Names<'a>,
    pick: Pick,
    at: &'a Access,
) -> Result<Interval, AllocError>
    requires fits { map_fits at.now ≡ true }
    requires pure { access_pure at.now ≡ true }
    requires bounded { access_bounded (scope_of names.now.entries) at.now ≡ true }
    ensures { IfOk result (λ found. range_at found ≡ picked_range pick (ranges_at (ranges_in (scope_of names.now.entries)) at.now)) }
{
    let results = results_of(alloc, names, at)?;
    Ok(picked_of(pick, results.as_slice()))
}
