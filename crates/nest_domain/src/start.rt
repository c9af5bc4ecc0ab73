// What is known before the body of a module: its index arguments.
ghost use Rattle.std.specs.Prelude.{◌≡◌, ℕ, ◌+◌, suc, if◌then◌else◌, ◌∷◌, map, List, Ok};
ghost use Rattle.affine_expr.specs.Bounded.{range_at};
ghost use Rattle.affine_expr.specs.Linear.{Meets, variable_form};
ghost use Rattle.nest_domain.specs.Ways.{Header, loop_count};
ghost use Rattle.nest_domain.specs.Steps.{header_of};
ghost use Rattle.nest_domain.specs.Domains.{count_of, symbol_count, with_symbol, with_kind, with_arguments, nothing_known};
ghost use Rattle.nest_domain.specs.Gathered.{known_of, Becomes};

use crate::known::{KnownForms, one_more};
use crate::step::Step;
use crate::table::set_form;
use crate::values::interval_rows;
use affine_ast::{Arg, ArgKind, Name};
use affine_expr::{Combination, Interval, LinearFault};
use indexmap::IndexMap;
use module_work::range_or;
use module_work::ranges::set as set_range;
use name_hash::NameHashing;
use std::alloc::Global;

/// Takes in an index argument.
fn add_symbol<'a>(
    alloc: Global,
    name: &'a Name,
    interval: Interval,
    known: &mut KnownForms<'a>,
) -> Result<(), LinearFault>
    ensures { let k = known_of known.old in Becomes (with_symbol name.now (range_at interval) (variable_form k.next k.outer) k) known.new result }
{
    let variable = Combination::of_variable(alloc, known.next as usize, known.outer as usize)?;
    let mut rows = interval_rows(alloc, &variable, interval)?;
    set_form(&mut known.forms, name, Some(variable))?;
    set_range(&mut known.ranges, name, interval)?;
    known.outer = one_more(known.outer)?;
    known.symbols.append(&mut rows)?;
    Ok(())
}

fn add_argument<'a>(
    alloc: Global,
    arg: &'a Arg,
    known: &mut KnownForms<'a>,
) -> Result<(), LinearFault>
    ensures { Becomes (with_kind arg.now.kind arg.now.name (known_of known.old)) known.new result }
{
    match &arg.kind {
        ArgKind::Memref(_) => Ok(()),
        ArgKind::Index(range) => add_symbol(alloc, &arg.name, range_or(*range), known),
    }
}

#[tactic(auto, using(crate::proofs::Starting::arguments_on, crate::proofs::Starting::arguments_stop, crate::proofs::Starting::arguments_end))]
fn add_arguments<'a>(
    alloc: Global,
    args: &'a [Arg],
    known: &mut KnownForms<'a>,
) -> Result<(), LinearFault>
    ensures { Becomes (with_arguments args.now (known_of known.old)) known.new result }
{
    for arg in args {
        add_argument(alloc, arg, known)?;
    }
    Ok(())
}

fn is_symbol(arg: &Arg) -> bool
    ensures { (if result then 1 else 0) ≡ count_of arg.now.kind }
{
    match &arg.kind {
        ArgKind::Memref(_) => false,
        ArgKind::Index(_) => true,
    }
}

/// A number, and one more where something is so.
fn one_if(number: u32, more: bool) -> Result<u32, LinearFault>
    ensures { Meets {A = ℕ} (Ok (if more then suc number else number)) (λ n. n) result }
{
    if more { one_more(number) } else { Ok(number) }
}

/// So many more as there are index arguments.
#[tactic(auto, using(crate::proofs::Starting::symbols_on, crate::proofs::Starting::symbols_end))]
fn with_symbols(number: u32, args: &[Arg]) -> Result<u32, LinearFault>
    ensures { Meets {A = ℕ} (Ok (number + symbol_count args.now)) (λ n. n) result }
{
    let mut count = number;
    for arg in args {
        count = one_if(count, is_symbol(arg))?;
    }
    Ok(count)
}

fn is_loop(step: &Step<'_>) -> bool
    ensures { (hs : List Header) → loop_count (header_of step.now ∷ hs) ≡ (if result then suc (loop_count hs) else loop_count hs) }
{
    match step {
        Step::Round { .. } => true,
        Step::Given { .. } => false,
        Step::Except { .. } => false,
        Step::Behind { .. } => false,
        Step::Past { .. } => false,
    }
}

/// So many more as there are loops on a way.
#[tactic(auto, using(crate::proofs::Starting::loops_on, crate::proofs::Starting::loops_end))]
fn with_loops(number: u32, way: &[Step<'_>]) -> Result<u32, LinearFault>
    ensures { Meets {A = ℕ} (Ok (number + loop_count (map header_of way.now))) (λ n. n) result }
{
    let mut count = number;
    for step in way {
        count = one_if(count, is_loop(step))?;
    }
    Ok(count)
}

/// Nothing is known; there are to be so many symbols and loops.
fn nothing_known<'a>(alloc: Global, hashing: NameHashing, next: u32) -> KnownForms<'a>
    ensures { known_of result ≡ nothing_known next }
{
    KnownForms {
        forms: IndexMap::with_hasher(alloc, hashing),
        ranges: IndexMap::with_hasher(alloc, hashing),
        outer: 0,
        next,
        symbols: Vec::new(alloc),
        loops: Vec::new(alloc),
        conditions: Vec::new(alloc),
        locals: Vec::new(alloc),
        goings: Vec::new(alloc),
    }
}

/// What is known before the first step of a way.
pub fn start<'a>(
    alloc: Global,
    hashing: NameHashing,
    args: &'a [Arg],
    way: &[Step<'_>],
) -> Result<KnownForms<'a>, LinearFault>
    ensures { Meets (with_arguments args.now (nothing_known (symbol_count args.now + loop_count (map header_of way.now)))) known_of result }
{
    let symbols = with_symbols(0, args)?;
    let next = with_loops(symbols, way)?;
    let mut known = nothing_known(alloc, hashing, next);
    add_arguments(alloc, args, &mut known)?;
    Ok(known)
}
