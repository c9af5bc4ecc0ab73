// The forms of names along a way, as code has them.
ghost use Rattle.std.specs.Prelude.{◌≡◌, ℕ, suc, ◌+◌, map, OnOk, List, Result, Ok, Err, if◌then◌else◌, ◌∷◌, [], Option};
ghost use Rattle.affine_expr.specs.declared.linear.LinearFault.{LinearFault};
ghost use Rattle.affine_ast.specs.Intervals.{Ranges};
ghost use Rattle.affine_ast.specs.Names.{put};
ghost use Rattle.affine_ast.specs.Nest.{plain_of};
ghost use Rattle.module_work.specs.Workable.{WorkableAccess, WorkablePlain};
ghost use Rattle.nest_domain.specs.Ways.{Header, loop_count};
ghost use Rattle.nest_domain.specs.Steps.{header_of};
ghost use Rattle.nest_domain.specs.Table.{forms_of};
ghost use Rattle.nest_domain.specs.Ready.{ReadyHeader};
ghost use Rattle.nest_domain.specs.Domains.{map_forms, count_of, symbol_count};
ghost use Rattle.box_covers.specs.Traced.{with_form, with_variable, with_local, first_form, with_result, with_value, with_constant, behind_plain, behind_one, traced, with_kind, with_arguments, nothing_traced};
ghost use Rattle.box_covers.specs.Told.{traced_of, Tells, AreReady};

use crate::bounds::map_forms;
use affine_ast::{Access, Arg, ArgKind, Name, Pick, Scalar, What};
use affine_expr::{Combination, LinearFault};
use indexmap::IndexMap;
use module_work::ranges::key_of;
use name_hash::NameHashing;
use nest_domain::{Forms, Step};
use std::alloc::{AllocError, Global};

/// The forms of names, how many symbols and loops there are so far, and the number of the next local.
#[derive(Drop)]
pub(crate) struct TracedForms<'a> {
    pub forms: Forms<'a>,
    pub outer: u32,
    pub next: u32,
}

/// A number with so many more.
fn with_more(number: u32, more: usize) -> Result<u32, LinearFault>
    ensures { Tells {A = ℕ} (number + more) (λ n. n) result }
{
    if more > (u32::MAX - number) as usize {
        return Err(LinearFault::Memory);
    }
    Ok(number + more as u32)
}

/// A number and one more.
fn one_more(number: u32) -> Result<u32, LinearFault>
    ensures { Tells {A = ℕ} (suc number) (λ n. n) result }
{
    if number == u32::MAX {
        return Err(LinearFault::Memory);
    }
    Ok(number + 1)
}

/// Sets the form of a name in a table.
fn set_form<'a>(
    forms: &mut Forms<'a>,
    name: &'a Name,
    form: Option<Combination>,
) -> Result<(), AllocError>
    ensures { OnOk result (forms_of forms.new.entries ≡ put (forms_of forms.old.entries) name.now form) }
{
    forms.insert(key_of(name), form)?;
    Ok(())
}

/// Gives a name a form, or none.
fn take_form<'a>(
    name: &'a Name,
    form: Option<Combination>,
    known: &mut TracedForms<'a>,
) -> Result<(), LinearFault>
    ensures { Tells (with_form name.now form (traced_of known.old)) (λ done. traced_of known.new) result }
{
    set_form(&mut known.forms, name, form)?;
    Ok(())
}

/// Takes in the next symbol or loop.
fn take_variable<'a>(
    alloc: Global,
    name: &'a Name,
    known: &mut TracedForms<'a>,
) -> Result<(), LinearFault>
    ensures { Tells (with_variable name.now (traced_of known.old)) (λ done. traced_of known.new) result }
{
    let form = Combination::of_variable(alloc, known.next as usize, known.outer as usize)?;
    take_form(name, Some(form), known)?;
    known.outer = one_more(known.outer)?;
    Ok(())
}

/// Takes in a name that is a local.
fn take_local<'a>(
    alloc: Global,
    name: &'a Name,
    known: &mut TracedForms<'a>,
) -> Result<(), LinearFault>
    ensures { Tells (with_local name.now (traced_of known.old)) (λ done. traced_of known.new) result }
{
    let next = one_more(known.next)?;
    let form = Combination::of_variable(alloc, next as usize, known.next as usize)?;
    take_form(name, Some(form), known)?;
    known.next = next;
    Ok(())
}

fn first_of(forms: Vec<Combination>) -> Option<Combination>
    ensures { result ≡ first_form forms.items }
{
    forms.into_iter().next()
}

/// Takes in a result of `affine.apply`.
fn take_result<'a>(
    alloc: Global,
    name: &'a Name,
    at: &'a Access,
    known: &mut TracedForms<'a>,
) -> Result<(), LinearFault>
    requires { (rho : Ranges) × WorkableAccess rho at.now }
    ensures { let k = traced_of known.old in Tells (with_result name.now (map_forms k.forms k.next at.now []) k) (λ done. traced_of known.new) result }
{
    let mut locals = Vec::new(alloc);
    match map_forms(alloc, &known.forms, known.next, at, &mut locals) {
        Ok(forms) => {
            take_form(name, first_of(forms), known)?;
            known.next = with_more(known.next, locals.len())?;
            Ok(())
        }
        Err(LinearFault::Wide) => take_form(name, None, known),
        Err(LinearFault::Memory) => Err(LinearFault::Memory),
    }
}

fn take_value<'a>(
    alloc: Global,
    name: &'a Name,
    pick: Pick,
    at: &'a Access,
    known: &mut TracedForms<'a>,
) -> Result<(), LinearFault>
    requires { (rho : Ranges) × WorkableAccess rho at.now }
    ensures { Tells (with_value name.now pick at.now (traced_of known.old)) (λ done. traced_of known.new) result }
{
    match pick {
        Pick::Apply => take_result(alloc, name, at, known),
        Pick::Min => take_local(alloc, name, known),
        Pick::Max => take_local(alloc, name, known),
    }
}

fn take_constant<'a>(
    alloc: Global,
    name: &'a Name,
    value: i64,
    ty: Scalar,
    known: &mut TracedForms<'a>,
) -> Result<(), LinearFault>
    ensures { Tells (with_constant name.now value ty (traced_of known.old)) (λ done. traced_of known.new) result }
{
    match ty {
        Scalar::Int(_) => take_form(name, None, known),
        Scalar::Index => {
            let form = Combination::of_number(alloc, 0, value as i128)?;
            take_form(name, Some(form), known)
        }
    }
}

/// Goes past a statement that has no region. A loop or a condition changes nothing.
fn pass_plain<'a>(
    alloc: Global,
    what: &'a What,
    known: &mut TracedForms<'a>,
) -> Result<(), LinearFault>
    requires { (rho : Ranges) × WorkablePlain rho (plain_of what.now) }
    ensures { Tells (behind_plain (plain_of what.now) (traced_of known.old)) (λ done. traced_of known.new) result }
{
    match what {
        What::Value { result, pick, at } => take_value(alloc, result, *pick, at, known),
        What::Constant { result, value, ty } => take_constant(alloc, result, *value, *ty, known),
        What::Load { result, .. } => take_form(result, None, known),
        What::RawLoad { result, .. } => take_form(result, None, known),
        What::Binary { result, .. } => take_form(result, None, known),
        What::Cast { result, .. } => take_form(result, None, known),
        What::Store { .. } => Ok(()),
        What::RawStore { .. } => Ok(()),
        What::Alloc { .. } => Ok(()),
        What::Dealloc { .. } => Ok(()),
        What::Start { .. } => Ok(()),
        What::Wait { .. } => Ok(()),
        What::Return => Ok(()),
        What::For { .. } => Ok(()),
        What::If { .. } => Ok(()),
    }
}

/// Goes past one thing on the way.
pub(crate) fn pass<'a>(
    alloc: Global,
    step: &Step<'a>,
    known: &mut TracedForms<'a>,
) -> Result<(), LinearFault>
    requires { (rho : Ranges) × ReadyHeader (header_of step.now) rho }
    ensures { Tells (behind_one (header_of step.now) (traced_of known.old)) (λ done. traced_of known.new) result }
{
    match step {
        Step::Round { var, .. } => take_variable(alloc, *var, known),
        Step::Given { .. } => Ok(()),
        Step::Except { .. } => Ok(()),
        Step::Behind { what } => pass_plain(alloc, *what, known),
        Step::Past { .. } => Ok(()),
    }
}

/// Goes along a way.
#[tactic(auto, using(crate::proofs::Passing::ready_at))]
pub(crate) fn trace<'a>(
    alloc: Global,
    way: &[Step<'a>],
    known: &mut TracedForms<'a>,
) -> Result<(), LinearFault>
    requires { AreReady (map header_of way.now) }
    ensures { Tells (traced (map header_of way.now) (traced_of known.old)) (λ done. traced_of known.new) result }
{
    for step in way {
        pass(alloc, step, known)?;
    }
    Ok(())
}

fn add_argument<'a>(
    alloc: Global,
    arg: &'a Arg,
    known: &mut TracedForms<'a>,
) -> Result<(), LinearFault>
    ensures { Tells (with_kind arg.now.kind arg.now.name (traced_of known.old)) (λ done. traced_of known.new) result }
{
    match &arg.kind {
        ArgKind::Memref(_) => Ok(()),
        ArgKind::Index(_) => take_variable(alloc, &arg.name, known),
    }
}

fn add_arguments<'a>(
    alloc: Global,
    args: &'a [Arg],
    known: &mut TracedForms<'a>,
) -> Result<(), LinearFault>
    ensures { Tells (with_arguments args.now (traced_of known.old)) (λ done. traced_of known.new) result }
{
    for arg in args {
        add_argument(alloc, arg, known)?;
    }
    Ok(())
}

fn is_symbol(arg: &Arg) -> bool
    ensures { (if result then 1 else 0) ≡ count_of arg.now.kind }
{
    match &arg.kind {
        ArgKind::Memref(_) => false,
        ArgKind::Index(_) => true,
    }
}

/// A number, and one more where something is so.
fn one_if(number: u32, more: bool) -> Result<u32, LinearFault>
    ensures { Tells {A = ℕ} (if more then suc number else number) (λ n. n) result }
{
    if more { one_more(number) } else { Ok(number) }
}

/// So many more as there are index arguments.
pub(crate) fn with_symbols(number: u32, args: &[Arg]) -> Result<u32, LinearFault>
    ensures { Tells {A = ℕ} (number + symbol_count args.now) (λ n. n) result }
{
    let mut count = number;
    for arg in args {
        count = one_if(count, is_symbol(arg))?;
    }
    Ok(count)
}

fn is_loop(step: &Step<'_>) -> bool
    ensures { (hs : List Header) → loop_count (header_of step.now ∷ hs) ≡ (if result then suc (loop_count hs) else loop_count hs) }
{
    match step {
        Step::Round { .. } => true,
        Step::Given { .. } => false,
        Step::Except { .. } => false,
        Step::Behind { .. } => false,
        Step::Past { .. } => false,
    }
}

/// So many more as there are loops on a way.
pub(crate) fn with_loops(number: u32, way: &[Step<'_>]) -> Result<u32, LinearFault>
    ensures { Tells {A = ℕ} (number + loop_count (map header_of way.now)) (λ n. n) result }
{
    let mut count = number;
    for step in way {
        count = one_if(count, is_loop(step))?;
    }
    Ok(count)
}

/// Nothing is known; there are to be so many symbols and loops.
fn nothing_traced<'a>(alloc: Global, hashing: NameHashing, next: u32) -> TracedForms<'a>
    ensures { traced_of result ≡ nothing_traced next }
{
    TracedForms {
        forms: IndexMap::with_hasher(alloc, hashing),
        outer: 0,
        next,
    }
}

/// What is known before the first step of a way, where there are to be so many symbols and loops.
pub(crate) fn start<'a>(
    alloc: Global,
    hashing: NameHashing,
    args: &'a [Arg],
    next: u32,
) -> Result<TracedForms<'a>, LinearFault>
    ensures { Tells (with_arguments args.now (nothing_traced next)) traced_of result }
{
    let mut known = nothing_traced(alloc, hashing, next);
    add_arguments(alloc, args, &mut known)?;
    Ok(known)
}
