// The names that a place uses, gathered from its end.
ghost use Rattle.std.specs.Prelude.{◌≡◌, [], ◌∷◌, ◌++◌, OnOk, IfOk};
ghost use Rattle.affine_ast.specs.Nest.{plain_of};
ghost use Rattle.affine_rules.specs.Scoped.{names_of};
ghost use Rattle.nest_domain.specs.Ways.{Behind, bound_names};
ghost use Rattle.nest_domain.specs.Steps.{header_of};
ghost use Rattle.nest_domain.specs.Used.{HasMore, TakesIn};

use crate::step::Step;
use affine_ast::{Bound, Name, What};
use affine_rules::Key;
use indexmap::IndexSet;
use module_work::ranges::key_of;
use name_hash::NameHashing;
use std::alloc::AllocError;

/// The names that are used behind a thing on the way.
pub type UsedNames<'a> = IndexSet<Key<'a>, NameHashing>;

fn is_used<'a>(used: &UsedNames<'a>, name: &'a Name) -> bool
    ensures { result ≡ names_of used.now.keys name.now }
{
    used.contains(&key_of(name))
}

fn add_name<'a>(used: &mut UsedNames<'a>, name: &'a Name) -> Result<(), AllocError>
    ensures { OnOk result (HasMore (name.now ∷ []) used.old.keys used.new.keys) }
{
    if !is_used(used, name) {
        used.insert(key_of(name))?;
    }
    Ok(())
}

/// Adds names.
pub fn add_names<'a>(used: &mut UsedNames<'a>, names: &'a [Name]) -> Result<(), AllocError>
    ensures { OnOk result (HasMore names.now used.old.keys used.new.keys) }
{
    for name in names {
        add_name(used, name)?;
    }
    Ok(())
}

fn add_bound<'a>(used: &mut UsedNames<'a>, bound: &'a Bound) -> Result<(), AllocError>
    ensures { OnOk result (HasMore (bound_names bound.now) used.old.keys used.new.keys) }
{
    match bound {
        Bound::Int(_) => Ok(()),
        Bound::Value(name) => add_name(used, name),
        Bound::Map(at) => add_names(used, at.operands.as_slice()),
    }
}

/// Adds the operands of a value that is used, and tells whether it is.
fn take_plain<'a>(used: &mut UsedNames<'a>, what: &'a What) -> Result<bool, AllocError>
    ensures { IfOk result (λ needed. TakesIn (Behind (plain_of what.now)) needed used.old.keys used.new.keys) }
{
    match what {
        What::Value { result, at, .. } => {
            if !is_used(used, result) {
                return Ok(false);
            }
            add_names(used, at.operands.as_slice())?;
            Ok(true)
        }
        _ => Ok(false),
    }
}

fn take_bounds<'a>(
    used: &mut UsedNames<'a>,
    lower: &'a Bound,
    upper: &'a Bound,
) -> Result<(), AllocError>
    ensures { OnOk result (HasMore (bound_names lower.now ++ bound_names upper.now) used.old.keys used.new.keys) }
{
    add_bound(used, upper)?;
    add_bound(used, lower)
}

/// Comes from the names that are used behind a step to those that are used from before it on, and tells whether the step's value
/// is among the first.
pub fn take_step<'a>(used: &mut UsedNames<'a>, step: &Step<'a>) -> Result<bool, AllocError>
    ensures { IfOk result (λ needed. TakesIn (header_of step.now) needed used.old.keys used.new.keys) }
{
    match step {
        Step::Round { lower, upper, .. } => {
            take_bounds(used, *lower, *upper)?;
            Ok(false)
        }
        Step::Given { operands, .. } => {
            add_names(used, *operands)?;
            Ok(false)
        }
        Step::Except { .. } => Ok(false),
        Step::Behind { what } => take_plain(used, *what),
        Step::Past { .. } => Ok(false),
    }
}
