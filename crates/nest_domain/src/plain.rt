// Past a statement that has no region.
ghost use Rattle.std.specs.Prelude.{◌≡◌, Ok};
ghost use Rattle.affine_expr.specs.Bounded.{range_at};
ghost use Rattle.affine_ast.specs.Intervals.{ranges_at, picked_range};
ghost use Rattle.affine_ast.specs.Nest.{Value, plain_of};
ghost use Rattle.module_work.specs.Workable.{WorkableAccess, WorkablePlain};
ghost use Rattle.nest_domain.specs.Domains.{with_value, formed_by, behind_by};
ghost use Rattle.nest_domain.specs.Entered.{with_name, with_range, no_form, constant_behind};
ghost use Rattle.nest_domain.specs.Gathered.{known_of, Becomes};

use crate::known::{KnownForms, apply_form};
use crate::rows::widened;
use crate::table::set_form;
use crate::values::pick_form;
use affine_ast::{Access, Name, Pick, Scalar, What};
use affine_expr::{Combination, Interval, LinearFault};
use module_work::bounds::picked;
use module_work::ranges::{only, set as set_range};
use std::alloc::Global;

/// Gives a name a form or none, and its interval.
pub(crate) fn take_name<'a>(
    name: &'a Name,
    form: Option<Combination>,
    interval: Interval,
    known: &mut KnownForms<'a>,
) -> Result<(), LinearFault>
    ensures { Becomes (Ok (with_name name.now form (range_at interval) (known_of known.old))) known.new result }
{
    set_form(&mut known.forms, name, form)?;
    set_range(&mut known.ranges, name, interval)?;
    Ok(())
}

/// Gives a name its interval.
fn take_range<'a>(
    name: &'a Name,
    interval: Interval,
    known: &mut KnownForms<'a>,
) -> Result<(), LinearFault>
    ensures { Becomes (Ok (with_range name.now (range_at interval) (known_of known.old))) known.new result }
{
    set_range(&mut known.ranges, name, interval)?;
    Ok(())
}

/// Takes in a name that holds data, which has no form.
fn take_data<'a>(name: &'a Name, known: &mut KnownForms<'a>) -> Result<(), LinearFault>
    ensures { Becomes (Ok (no_form name.now (known_of known.old))) known.new result }
{
    take_name(name, None, only(0), known)
}

/// Takes in a constant: one of type `index` is a form, data has none.
fn take_constant<'a>(
    alloc: Global,
    name: &'a Name,
    value: i64,
    ty: Scalar,
    known: &mut KnownForms<'a>,
) -> Result<(), LinearFault>
    ensures { Becomes (Ok (constant_behind name.now value ty (known_of known.old))) known.new result }
{
    match ty {
        Scalar::Int(_) => take_data(name, known),
        Scalar::Index => {
            let form = Combination::of_number(alloc, 0, widened(value))?;
            take_name(name, Some(form), only(value), known)
        }
    }
}

/// Gives a result of a map its form.
fn form_value<'a>(
    alloc: Global,
    name: &'a Name,
    pick: Pick,
    at: &'a Access,
    interval: Interval,
    known: &mut KnownForms<'a>,
) -> Result<(), LinearFault>
    requires workable { WorkableAccess (known_of known.old).ranges at.now }
    requires interval { range_at interval ≡ picked_range pick (ranges_at (known_of known.old).ranges at.now) }
    ensures { Becomes (with_value name.now pick at.now (known_of known.old)) known.new result }
{
    match pick {
        Pick::Apply => apply_form(alloc, name, at, known),
        Pick::Min => pick_form(alloc, name, Pick::Min, at, interval, known),
        Pick::Max => pick_form(alloc, name, Pick::Max, at, interval, known),
    }
}

/// Gives a result of a map its form where it is needed, and none otherwise.
fn form_needed<'a>(
    alloc: Global,
    name: &'a Name,
    pick: Pick,
    at: &'a Access,
    interval: Interval,
    needed: bool,
    known: &mut KnownForms<'a>,
) -> Result<(), LinearFault>
    requires workable { WorkableAccess (known_of known.old).ranges at.now }
    requires interval { range_at interval ≡ picked_range pick (ranges_at (known_of known.old).ranges at.now) }
    ensures { Becomes (formed_by (Value name.now pick at.now) needed (known_of known.old)) known.new result }
{
    if needed {
        return form_value(alloc, name, pick, at, interval, known);
    }
    set_form(&mut known.forms, name, None)?;
    Ok(())
}

/// Takes in a result of a map with its interval, and its form where it is needed.
fn take_value<'a>(
    alloc: Global,
    name: &'a Name,
    pick: Pick,
    at: &'a Access,
    needed: bool,
    known: &mut KnownForms<'a>,
) -> Result<(), LinearFault>
    requires { WorkableAccess (known_of known.old).ranges at.now }
    ensures { Becomes (behind_by (Value name.now pick at.now) needed (known_of known.old)) known.new result }
{
    let interval = picked(alloc, &known.ranges, pick, at)?;
    form_needed(alloc, name, pick, at, interval, needed, known)?;
    take_range(name, interval, known)
}

/// Goes past a statement that has no region. A loop or a condition changes nothing.
pub(crate) fn pass_plain<'a>(
    alloc: Global,
    what: &'a What,
    needed: bool,
    known: &mut KnownForms<'a>,
) -> Result<(), LinearFault>
    requires { WorkablePlain (known_of known.old).ranges (plain_of what.now) }
    ensures { Becomes (behind_by (plain_of what.now) needed (known_of known.old)) known.new result }
{
    match what {
        What::Value { result, pick, at } => take_value(alloc, result, *pick, at, needed, known),
        What::Constant { result, value, ty } => take_constant(alloc, result, *value, *ty, known),
        What::Load { result, .. } => take_data(result, known),
        What::RawLoad { result, .. } => take_data(result, known),
        What::Binary { result, .. } => take_data(result, known),
        What::Cast { result, .. } => take_data(result, known),
        What::Store { .. } => Ok(()),
        What::RawStore { .. } => Ok(()),
        What::Alloc { .. } => Ok(()),
        What::Dealloc { .. } => Ok(()),
        What::Start { .. } => Ok(()),
        What::Wait { .. } => Ok(()),
        What::Return => Ok(()),
        What::For { .. } => Ok(()),
        What::If { .. } => Ok(()),
    }
}
