// The work of statements.
ghost use Rattle.std.specs.Prelude.{◌≡◌, ℕ, ◌+◌, ◌^◌, ◌≤◌, OnOk, IfOk, false, pos, ◌<ℤ◌};
ghost use Rattle.affine_expr.specs.Bounded.{range_at};
ghost use Rattle.affine_ast.specs.Intervals.{first_turn, last_end, turn_range, ranges_at, picked_range};
ghost use Rattle.affine_ast.specs.Names.{put};
ghost use Rattle.affine_ast.specs.Nest.{nest, Nothing, put_what, plain_of, is_region};
ghost use Rattle.direct_meaning.specs.Work.{turn_count, full_work, no_range};
ghost use Rattle.module_work.specs.Saturated.{saturated};
ghost use Rattle.module_work.specs.Steps.{range_of_constant, Does, Steps};
ghost use Rattle.module_work.specs.Table.{ranges_of, put_back};
ghost use Rattle.module_work.specs.Workable.{WorkableBound, WorkableAccess, WorkablePlain, Workable};

use crate::bounds::{first_turn, last_end, picked};
use crate::count::{product, start_work, sum, turn_count};
use crate::ranges::{Before, Ranges, define, only, range_of, restore, set};
use affine_ast::{Bound, Name, Scalar, Stmt, What};
use affine_expr::Interval;
use affine_verify::turns;
use std::alloc::{AllocError, Global};

/// The turns of a loop that is entered, and the interval that its variable has outside.
#[derive(Clone, Copy)]
struct Entered {
    turns: u128,
    outside: Interval,
}

/// Gives a loop's variable its interval, for the body.
fn enter_loop<'a>(
    alloc: Global,
    ranges: &mut Ranges<'a>,
    var: &'a Name,
    lower: &'a Bound,
    upper: &'a Bound,
    step: i64,
) -> Result<Entered, AllocError>
    requires lower { WorkableBound (ranges_of ranges.old.entries) lower.now }
    requires upper { WorkableBound (ranges_of ranges.old.entries) upper.now }
    requires step { pos 0 <ℤ step }
    ensures turns { let rho = ranges_of ranges.old.entries in IfOk result (λ entered. entered.turns ≡ turn_count (first_turn rho lower.now) (last_end rho upper.now) step) }
    ensures outside { IfOk result (λ entered. range_at entered.outside ≡ ranges_of ranges.old.entries var.now) }
    ensures ranges { let rho = ranges_of ranges.old.entries in OnOk result (ranges_of ranges.new.entries ≡ put rho var.now (turn_range (first_turn rho lower.now) (last_end rho upper.now))) }
{
    let first = first_turn(alloc, ranges, lower)?;
    let end = last_end(alloc, ranges, upper)?;
    let outside = range_of(ranges, var);
    set(ranges, var, turns(first, end))?;
    Ok(Entered {
        turns: turn_count(first, end, step),
        outside,
    })
}

/// The interval of a constant: data has none.
fn constant(value: i64, ty: Scalar) -> Interval
    ensures { range_at result ≡ range_of_constant value ty }
{
    match ty {
        Scalar::Int(_) => only(0),
        Scalar::Index => only(value),
    }
}

/// The work of a statement without a region. Its result has its interval from then on.
fn plain<'a>(
    alloc: Global,
    what: &'a What,
    ranges: &mut Ranges<'a>,
    before: &mut Vec<Before<'a>>,
) -> Result<u128, AllocError>
    requires region { is_region what.now ≡ false }
    requires workable { WorkablePlain (ranges_of ranges.old.entries) (plain_of what.now) }
    ensures does { IfOk result (λ work. Does work (plain_of what.now) (ranges_of ranges.old.entries) (ranges_of ranges.new.entries)) }
    ensures kept { OnOk result (put_back before.new.items (ranges_of ranges.new.entries) ≡ put_back before.old.items (ranges_of ranges.old.entries)) }
{
    match what {
        What::Value { result, pick, at } => {
            let interval = picked(alloc, ranges, *pick, at)?;
            define(ranges, before, result, interval)?;
            Ok(1)
        }
        What::Constant { result, value, ty } => {
            define(ranges, before, result, constant(*value, *ty))?;
            Ok(1)
        }
        What::Load { result, .. } => {
            define(ranges, before, result, only(0))?;
            Ok(1)
        }
        What::RawLoad { result, .. } => {
            define(ranges, before, result, only(0))?;
            Ok(1)
        }
        What::Binary { result, .. } => {
            define(ranges, before, result, only(0))?;
            Ok(1)
        }
        What::Cast { result, .. } => {
            define(ranges, before, result, only(0))?;
            Ok(1)
        }
        What::Start { count, .. } => Ok(start_work(range_of(ranges, count).greatest)),
        What::Store { .. } => Ok(1),
        What::RawStore { .. } => Ok(1),
        What::Alloc { .. } => Ok(1),
        What::Dealloc { .. } => Ok(1),
        What::Wait { .. } => Ok(1),
        What::Return => Ok(1),
        What::For { .. } => Ok(1),
        What::If { .. } => Ok(1),
    }
}

/// The work so far with that of a statement without a region.
fn with_plain<'a>(
    alloc: Global,
    what: &'a What,
    total: u128,
    ranges: &mut Ranges<'a>,
    before: &mut Vec<Before<'a>>,
) -> Result<u128, AllocError>
    requires region { is_region what.now ≡ false }
    requires workable { WorkablePlain (ranges_of ranges.old.entries) (plain_of what.now) }
    ensures steps { (line : ℕ) → IfOk result (λ next. Steps total next (record { line = line; what = what.now }) (ranges_of ranges.old.entries) (ranges_of ranges.new.entries)) }
    ensures kept { OnOk result (put_back before.new.items (ranges_of ranges.new.entries) ≡ put_back before.old.items (ranges_of ranges.old.entries)) }
{
    let work = plain(alloc, what, ranges, before)?;
    Ok(sum(total, work))
}

/// The work so far with that of a statement. A region leaves the intervals as they were.
#[cycle(walk)]
fn statement<'a>(
    alloc: Global,
    stmt: &'a Stmt,
    total: u128,
    ranges: &mut Ranges<'a>,
    before: &mut Vec<Before<'a>>,
) -> Result<u128, AllocError>
    requires workable { Workable (put_what stmt.now.what stmt.now.line Nothing) (ranges_of ranges.old.entries) }
    requires total { total ≤ 2 ^ 127 }
    ensures steps { IfOk result (λ next. Steps total next stmt.now (ranges_of ranges.old.entries) (ranges_of ranges.new.entries)) }
    ensures kept { OnOk result (put_back before.new.items (ranges_of ranges.new.entries) ≡ put_back before.old.items (ranges_of ranges.old.entries)) }
{
    match &stmt.what {
        What::For {
            var,
            lower,
            upper,
            step,
            body,
        } => {
            let entered = enter_loop(alloc, ranges, var, lower, upper, *step)?;
            let inside = list(alloc, body.as_slice(), 0, ranges)?;
            set(ranges, var, entered.outside)?;
            Ok(sum(total, product(entered.turns, inside)))
        }
        What::If { first, other, .. } => {
            let total = list(alloc, first.as_slice(), total, ranges)?;
            match other {
                None => Ok(total),
                Some(other) => list(alloc, other.as_slice(), total, ranges),
            }
        }
        What::Value { .. } => with_plain(alloc, &stmt.what, total, ranges, before),
        What::Load { .. } => with_plain(alloc, &stmt.what, total, ranges, before),
        What::Store { .. } => with_plain(alloc, &stmt.what, total, ranges, before),
        What::RawLoad { .. } => with_plain(alloc, &stmt.what, total, ranges, before),
        What::RawStore { .. } => with_plain(alloc, &stmt.what, total, ranges, before),
        What::Constant { .. } => with_plain(alloc, &stmt.what, total, ranges, before),
        What::Binary { .. } => with_plain(alloc, &stmt.what, total, ranges, before),
        What::Cast { .. } => with_plain(alloc, &stmt.what, total, ranges, before),
        What::Alloc { .. } => with_plain(alloc, &stmt.what, total, ranges, before),
        What::Dealloc { .. } => with_plain(alloc, &stmt.what, total, ranges, before),
        What::Start { .. } => with_plain(alloc, &stmt.what, total, ranges, before),
        What::Wait { .. } => with_plain(alloc, &stmt.what, total, ranges, before),
        What::Return => with_plain(alloc, &stmt.what, total, ranges, before),
    }
}

/// The work so far with that of the statements of a list. The intervals are then as they were before.
#[cycle(walk)]
pub(crate) fn list<'a>(
    alloc: Global,
    stmts: &'a [Stmt],
    total: u128,
    ranges: &mut Ranges<'a>,
) -> Result<u128, AllocError>
    requires workable { Workable (nest stmts.now) (ranges_of ranges.old.entries) }
    requires total { total ≤ 2 ^ 127 }
    ensures work { IfOk result (λ next. next ≡ saturated (total + full_work (nest stmts.now) (ranges_of ranges.old.entries))) }
    ensures ranges { OnOk result (ranges_of ranges.new.entries ≡ ranges_of ranges.old.entries) }
{
    let mut next = total;
    let mut before = Vec::new(alloc);
    for stmt in stmts {
        next = statement(alloc, stmt, next, ranges, &mut before)?;
    }
    restore(ranges, before)?;
    Ok(next)
}
