// What is gathered along the way to a place.
ghost use Rattle.std.specs.Prelude.{◌≡◌, ℕ, suc, ◌+◌, true, Ok};
ghost use Rattle.std.specs.List.{list_all};
ghost use Rattle.affine_expr.specs.Linear.{Meets};
ghost use Rattle.module_work.specs.Workable.{WorkableAccess};
ghost use Rattle.nest_domain.specs.Domains.{in_condition, applied, with_divisions};
ghost use Rattle.nest_domain.specs.Gathered.{known_of, Becomes};
ghost use Rattle.nest_domain.specs.Kept.{row_ready};

use crate::forms::{map_forms, operand_forms, parted};
use crate::rows::{all_floor_rows, set_rows};
use crate::table::{Forms, copied, set_form};
use affine_ast::{Access, Name};
use affine_expr::{Combination, Leaves, LinearFault, Local, Set};
use module_work::ranges::Ranges;
use std::alloc::Global;
use std::marker::Model;

/// The forms of a loop's lower and upper results, and its step.
#[derive(Drop)]
pub struct LoopForms {
    pub lowers: Vec<Combination>,
    pub uppers: Vec<Combination>,
    pub step: i64,
}

impl Model for LoopForms {
    ghost use Rattle.nest_domain.specs.Domains.{Going};

    ghost Value = { Going };

    ghost view = { λ g. record { lowers = g.lowers.items; uppers = g.uppers.items; step = g.step } };
}

/// What is known along the way to a place: the forms and intervals of names, how many symbols and loops there are so far, the
/// number of the next local, the rows of symbols, loops, conditions and locals, and the loops from the outside in.
#[derive(Drop)]
pub struct KnownForms<'a> {
    pub forms: Forms<'a>,
    pub ranges: Ranges<'a>,
    pub outer: u32,
    pub next: u32,
    pub symbols: Vec<Combination>,
    pub loops: Vec<Combination>,
    pub conditions: Vec<Combination>,
    pub locals: Vec<Combination>,
    pub goings: Vec<LoopForms>,
}

/// A number of variables with so many more.
fn with_more(number: u32, more: usize) -> Result<u32, LinearFault>
    ensures { Meets {A = ℕ} (Ok (number + more)) (λ n. n) result }
{
    if more > (u32::MAX - number) as usize {
        return Err(LinearFault::Memory);
    }
    Ok(number + more as u32)
}

/// A number of variables and one more.
pub(crate) fn one_more(number: u32) -> Result<u32, LinearFault>
    ensures { Meets {A = ℕ} (Ok (suc number)) (λ n. n) result }
{
    if number == u32::MAX {
        return Err(LinearFault::Memory);
    }
    Ok(number + 1)
}

/// Takes in the locals of divisions, with their rows.
pub(crate) fn add_divisions<'a>(
    alloc: Global,
    locals: &[Local],
    known: &mut KnownForms<'a>,
) -> Result<(), LinearFault>
    ensures { Becomes (with_divisions locals.now (known_of known.old)) known.new result }
{
    let mut rows = all_floor_rows(alloc, locals)?;
    known.next = with_more(known.next, locals.len())?;
    known.locals.append(&mut rows)?;
    Ok(())
}

/// Goes into the first region of a condition.
pub(crate) fn enter_condition<'a>(
    alloc: Global,
    set: &'a Set,
    operands: &'a [Name],
    known: &mut KnownForms<'a>,
) -> Result<(), LinearFault>
    requires { list_all row_ready set.now.rows ≡ true }
    ensures { Becomes (in_condition set.now operands.now (known_of known.old)) known.new result }
{
    let forms = operand_forms(alloc, &known.forms, operands)?;
    let (dims, syms) = parted(set.dims, forms.as_slice());
    let leaves = Leaves {
        width: known.next as usize,
        dims,
        syms,
    };
    let mut locals = Vec::new(alloc);
    let mut rows = set_rows(alloc, set.rows.as_slice(), &leaves, &mut locals)?;
    known.conditions.append(&mut rows)?;
    add_divisions(alloc, locals.as_slice(), known)
}

/// Gives a result of `affine.apply` its form.
pub(crate) fn apply_form<'a>(
    alloc: Global,
    named: &'a Name,
    at: &'a Access,
    known: &mut KnownForms<'a>,
) -> Result<(), LinearFault>
    requires { WorkableAccess (known_of known.old).ranges at.now }
    ensures { Becomes (applied named.now at.now (known_of known.old)) known.new result }
{
    let mut locals = Vec::new(alloc);
    let forms = map_forms(alloc, &known.forms, known.next, at, &mut locals)?;
    let Some(first) = forms.first() else {
        return Err(LinearFault::Wide);
    };
    set_form(&mut known.forms, named, Some(copied(first)?))?;
    add_divisions(alloc, locals.as_slice(), known)
}
