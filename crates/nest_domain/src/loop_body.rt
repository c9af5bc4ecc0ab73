// Going into the bodies of loops.
ghost use Rattle.std.specs.Prelude.{◌≡◌, [], ◌<ℤ◌, pos, Ok, IfOk};
ghost use Rattle.affine_expr.specs.Bounded.{range_at};
ghost use Rattle.affine_expr.specs.Linear.{Meets};
ghost use Rattle.affine_ast.specs.Intervals.{first_turn, last_end, turn_range};
ghost use Rattle.module_work.specs.Table.{ranges_of};
ghost use Rattle.module_work.specs.Workable.{WorkableBound};
ghost use Rattle.nest_domain.specs.Domains.{upper_rows};
ghost use Rattle.nest_domain.specs.Entered.{both_bounds, GivesGoing, rows_then, going_rows, with_turns, with_bounds, loop_in_parts};
ghost use Rattle.nest_domain.specs.Gathered.{known_of, Becomes};
ghost use Rattle.nest_domain.specs.Table.{forms_of};

use crate::forms::bound_forms;
use crate::known::{KnownForms, LoopForms, add_divisions, one_more};
use crate::rows::{all_from, upper_rows};
use crate::table::{Forms, set_form};
use affine_ast::{Bound, Name};
use affine_expr::{Combination, Interval, LinearFault, Local};
use affine_verify::turns;
use module_work::bounds::{first_turn, last_end};
use module_work::ranges::{Ranges, set as set_range};
use std::alloc::{AllocError, Global};

/// The interval of a loop's variable.
fn turns_of<'a>(
    alloc: Global,
    ranges: &Ranges<'a>,
    lower: &'a Bound,
    upper: &'a Bound,
) -> Result<Interval, AllocError>
    requires lower { WorkableBound (ranges_of ranges.now.entries) lower.now }
    requires upper { WorkableBound (ranges_of ranges.now.entries) upper.now }
    ensures { let rho = ranges_of ranges.now.entries in IfOk result (λ found. range_at found ≡ turn_range (first_turn rho lower.now) (last_end rho upper.now)) }
{
    let first = first_turn(alloc, ranges, lower)?;
    let end = last_end(alloc, ranges, upper)?;
    Ok(turns(first, end))
}

/// The forms of a loop's bounds, the first locals being those of their divisions.
fn bounds_of<'a>(
    alloc: Global,
    known: &KnownForms<'a>,
    lower: &'a Bound,
    upper: &'a Bound,
    step: i64,
    locals: &mut Vec<Local>,
) -> Result<LoopForms, LinearFault>
    requires none { locals.old.items ≡ [] }
    requires lower { WorkableBound (known_of known.now).ranges lower.now }
    requires upper { WorkableBound (known_of known.now).ranges upper.now }
    ensures forms { GivesGoing (both_bounds (known_of known.now).forms known.now.next lower.now upper.now step) locals.new.items result }
    ensures step { IfOk result (λ bounds. bounds.step ≡ step) }
{
    let lowers = bound_forms(alloc, &known.forms, known.next, lower, locals)?;
    let uppers = bound_forms(alloc, &known.forms, known.next, upper, locals)?;
    Ok(LoopForms {
        lowers,
        uppers,
        step,
    })
}

/// These rows, and then those of a loop's variable over its upper results.
fn with_upper_rows(
    alloc: Global,
    mut rows: Vec<Combination>,
    variable: &Combination,
    lowers: &[Combination],
    step: i64,
    uppers: &[Combination],
) -> Result<Vec<Combination>, LinearFault>
    requires { pos 0 <ℤ step }
    ensures { Meets (rows_then rows.items (upper_rows lowers.now step variable.now uppers.now)) (λ found. found.items) result }
{
    let mut above = upper_rows(alloc, lowers, step, variable, uppers)?;
    rows.append(&mut above)?;
    Ok(rows)
}

/// The rows of a loop's variable over its lower results, and then over its upper ones.
fn loop_rows(
    alloc: Global,
    variable: &Combination,
    bounds: &LoopForms,
) -> Result<Vec<Combination>, LinearFault>
    requires { pos 0 <ℤ bounds.now.step }
    ensures { Meets (going_rows variable.now bounds.now) (λ rows. rows.items) result }
{
    let below = all_from(alloc, variable, bounds.lowers.as_slice())?;
    with_upper_rows(
        alloc,
        below,
        variable,
        bounds.lowers.as_slice(),
        bounds.step,
        bounds.uppers.as_slice(),
    )
}

/// Takes in a loop with its variable, its interval, its rows and its bounds.
fn take_loop<'a>(
    var: &'a Name,
    variable: Combination,
    interval: Interval,
    mut rows: Vec<Combination>,
    bounds: LoopForms,
    known: &mut KnownForms<'a>,
) -> Result<(), LinearFault>
    ensures { Becomes (Ok (with_turns var.now (range_at interval) variable rows.items bounds (known_of known.old))) known.new result }
{
    known.outer = one_more(known.outer)?;
    set_form(&mut known.forms, var, Some(variable))?;
    set_range(&mut known.ranges, var, interval)?;
    known.loops.append(&mut rows)?;
    known.goings.push(bounds)?;
    Ok(())
}

/// Takes in a loop whose bounds have these forms, with the locals of their divisions.
fn enter_bounds<'a>(
    alloc: Global,
    var: &'a Name,
    interval: Interval,
    bounds: LoopForms,
    locals: &[Local],
    known: &mut KnownForms<'a>,
) -> Result<(), LinearFault>
    requires { pos 0 <ℤ bounds.step }
    ensures { Becomes (with_bounds var.now (range_at interval) bounds locals.now (known_of known.old)) known.new result }
{
    let variable = Combination::of_variable(alloc, known.next as usize, known.outer as usize)?;
    let rows = loop_rows(alloc, &variable, &bounds)?;
    take_loop(var, variable, interval, rows, bounds, known)?;
    add_divisions(alloc, locals, known)
}

/// Goes into the body of a loop.
pub(crate) fn enter_loop<'a>(
    alloc: Global,
    var: &'a Name,
    lower: &'a Bound,
    upper: &'a Bound,
    step: i64,
    known: &mut KnownForms<'a>,
) -> Result<(), LinearFault>
    requires lower { WorkableBound (known_of known.old).ranges lower.now }
    requires upper { WorkableBound (known_of known.old).ranges upper.now }
    requires step { pos 0 <ℤ step }
    ensures { Becomes (loop_in_parts var.now lower.now upper.now step (known_of known.old)) known.new result }
{
    let interval = turns_of(alloc, &known.ranges, lower, upper)?;
    let mut locals = Vec::new(alloc);
    let bounds = bounds_of(alloc, known, lower, upper, step, &mut locals)?;
    enter_bounds(alloc, var, interval, bounds, locals.as_slice(), known)
}
