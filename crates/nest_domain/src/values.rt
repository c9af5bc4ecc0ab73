// The forms and rows of values that are locals: the results of `affine.min` and `affine.max`.
ghost use Rattle.std.specs.Prelude.{◌≡◌, suc, Ok};
ghost use Rattle.affine_expr.specs.Bounded.{range_at};
ghost use Rattle.affine_expr.specs.Linear.{Meets, variable_form};
ghost use Rattle.module_work.specs.Workable.{WorkableAccess};
ghost use Rattle.nest_domain.specs.Domains.{picked_rows};
ghost use Rattle.nest_domain.specs.Entered.{rows_then, interval_rows, local_rows, with_local, pick_in_parts};
ghost use Rattle.nest_domain.specs.Gathered.{known_of, Becomes};

use crate::forms::map_forms;
use crate::known::{KnownForms, add_divisions, one_more};
use crate::rows::{all_from, all_less, two, widened};
use crate::table::set_form;
use affine_ast::{Access, Name, Pick};
use affine_expr::{Combination, Interval, LinearFault};
use std::alloc::Global;

/// The rows of a form between the ends of an interval.
pub(crate) fn interval_rows(
    alloc: Global,
    form: &Combination,
    interval: Interval,
) -> Result<Vec<Combination>, LinearFault>
    ensures { Meets (interval_rows form.now (range_at interval)) (λ rows. rows.items) result }
{
    let least = Combination::of_number(alloc, 0, widened(interval.least))?;
    let low = form.minus(alloc, &least)?;
    let greatest = Combination::of_number(alloc, 0, widened(interval.greatest))?;
    let high = greatest.minus(alloc, form)?;
    two(alloc, low, high)
}

/// The rows of a local and a map's results: that of `affine.min` is at most each, that of `affine.max` at least each.
fn picked_rows(
    alloc: Global,
    pick: Pick,
    variable: &Combination,
    results: &[Combination],
) -> Result<Vec<Combination>, LinearFault>
    ensures { Meets (picked_rows pick variable.now results.now) (λ rows. rows.items) result }
{
    match pick {
        Pick::Apply => Ok(Vec::new(alloc)),
        Pick::Min => all_less(alloc, results, variable),
        Pick::Max => all_from(alloc, variable, results),
    }
}

/// These rows, and then those of a form between the ends of an interval.
fn with_interval(
    alloc: Global,
    mut rows: Vec<Combination>,
    form: &Combination,
    interval: Interval,
) -> Result<Vec<Combination>, LinearFault>
    ensures { Meets (rows_then rows.items (interval_rows form.now (range_at interval))) (λ found. found.items) result }
{
    let mut ends = interval_rows(alloc, form, interval)?;
    rows.append(&mut ends)?;
    Ok(rows)
}

/// The rows of a local of a map's results in an interval.
fn local_rows(
    alloc: Global,
    pick: Pick,
    variable: &Combination,
    results: &[Combination],
    interval: Interval,
) -> Result<Vec<Combination>, LinearFault>
    ensures { Meets (local_rows pick variable.now results.now (range_at interval)) (λ rows. rows.items) result }
{
    let rows = picked_rows(alloc, pick, variable, results)?;
    with_interval(alloc, rows, variable, interval)
}

/// Takes in a name that is one more local, with its rows.
fn take_local<'a>(
    named: &'a Name,
    variable: Combination,
    mut rows: Vec<Combination>,
    known: &mut KnownForms<'a>,
) -> Result<(), LinearFault>
    ensures { Becomes (Ok (with_local named.now variable rows.items (known_of known.old))) known.new result }
{
    known.next = one_more(known.next)?;
    set_form(&mut known.forms, named, Some(variable))?;
    known.locals.append(&mut rows)?;
    Ok(())
}

/// Gives a result of `affine.min` or `affine.max` a local in its interval.
pub(crate) fn pick_form<'a>(
    alloc: Global,
    named: &'a Name,
    pick: Pick,
    at: &'a Access,
    interval: Interval,
    known: &mut KnownForms<'a>,
) -> Result<(), LinearFault>
    requires { WorkableAccess (known_of known.old).ranges at.now }
    ensures { let k = known_of known.old in Becomes (pick_in_parts named.now pick at.now (range_at interval) (variable_form (suc k.next) k.next) k) known.new result }
{
    let next = one_more(known.next)?;
    let variable = Combination::of_variable(alloc, next as usize, known.next as usize)?;
    let mut locals = Vec::new(alloc);
    let forms = map_forms(alloc, &known.forms, next, at, &mut locals)?;
    let rows = local_rows(alloc, pick, &variable, forms.as_slice(), interval)?;
    take_local(named, variable, rows, known)?;
    add_divisions(alloc, locals.as_slice(), known)
}
