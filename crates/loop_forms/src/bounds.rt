// The bounds of the three loops.
ghost use Rattle.std.specs.Prelude.{◌≡◌, ◌-◌, ◌<ℤ◌, ◌≤◌, ◌+ℤ◌, ◌-ℤ◌, ◌*ℤ◌, ◌++◌, ◌∷◌, [], take, drop, pos, IfOk, OnOk};
ghost use Rattle.std.specs.Int.{int_max};
ghost use Rattle.affine_expr.specs.declared.expr.Expr.{Const, FloorDiv};
ghost use Rattle.affine_ast.specs.declared.types.Bound.TheVariants as bound;
ghost use Rattle.affine_expr.specs.Value.{floor_div};
ghost use Rattle.loop_forms.specs.Sums.{difference_of, sum_of};
ghost use Rattle.loop_forms.specs.Laws.{HasOneResult};
ghost use Rattle.loop_forms.specs.Split.{as_map, sole, second_of, over_both, with_result, reach, prologue_length, prologue_end, main_end, epilogue_begin, last_turns, of_numbers, of_maps, split_of};

use crate::leaves::{behind, leaf_behind};
use crate::numbers::{
    count, greater, lesser, narrow, quotient, wide, wide_difference, wide_product, wide_sum,
};
use crate::parts::Parts;
use crate::sums::{difference, sum};
use affine_ast::{Access, Bound, Name};
use affine_expr::{Expr, Map};
use sqlite_items::{Boxed, Items};
use std::alloc::{AllocError, Global};

/// How far the transfers run ahead of the work, in numbers of the loop's variable.
fn reach(step: i64, buffers: u32) -> i128
    requires many { 2 ≤ buffers }
    requires few { buffers ≤ 8 }
    ensures { result ≡ reach step buffers }
{
    (buffers - 1) as i128 * step as i128
}

/// From the lower bound to behind the prologue's last turn.
fn prologue_length(step: i64, buffers: u32) -> i128
    requires many { 2 ≤ buffers }
    requires few { buffers ≤ 8 }
    ensures { result ≡ prologue_length step buffers }
{
    (buffers - 2) as i128 * step as i128 + 1
}

/// Where the prologue ends between two numbers.
fn prologue_end(lower: i64, upper: i64, step: i64, buffers: u32) -> Result<i64, AllocError>
    requires many { 2 ≤ buffers }
    requires few { buffers ≤ 8 }
    ensures { IfOk result (λ end. end ≡ prologue_end lower upper step buffers) }
{
    let end = wide_sum(wide(lower), prologue_length(step, buffers))?;
    narrow(lesser(end, wide(upper)))
}

/// Where the main loop ends before a number.
fn main_end(upper: i64, step: i64, buffers: u32) -> Result<i64, AllocError>
    requires many { 2 ≤ buffers }
    requires few { buffers ≤ 8 }
    ensures { IfOk result (λ end. end ≡ main_end upper step buffers) }
{
    narrow(wide_difference(wide(upper), reach(step, buffers))?)
}

/// How many whole steps lie from one number to the last before another.
fn steps_to_last(lower: i128, upper: i128, step: i128) -> Result<i128, AllocError>
    requires positive { pos 0 <ℤ step }
    ensures { IfOk result (λ steps. steps ≡ floor_div (upper -ℤ lower -ℤ pos 1) step) }
{
    let length = wide_difference(upper, lower)?;
    Ok(quotient(wide_difference(length, 1)?, step))
}

/// How many turns lie before the last ones, where there are as many.
fn turns_before_last(lower: i64, upper: i64, step: i64, buffers: u32) -> Result<i128, AllocError>
    requires positive { pos 0 <ℤ step }
    requires many { 2 ≤ buffers }
    ensures { IfOk result (λ turns. turns ≡ floor_div (upper -ℤ lower -ℤ pos 1) step -ℤ pos (buffers - 2)) }
{
    let steps = steps_to_last(wide(lower), wide(upper), wide(step))?;
    wide_difference(steps, count(buffers - 2))
}

/// Where the last turns begin, where there are as many.
fn before_last(lower: i64, upper: i64, step: i64, buffers: u32) -> Result<i128, AllocError>
    requires positive { pos 0 <ℤ step }
    requires many { 2 ≤ buffers }
    ensures { IfOk result (λ begin. begin ≡ lower +ℤ (floor_div (upper -ℤ lower -ℤ pos 1) step -ℤ pos (buffers - 2)) *ℤ step) }
{
    let turns = turns_before_last(lower, upper, step, buffers)?;
    let length = wide_product(turns, wide(step))?;
    wide_sum(wide(lower), length)
}

fn not_before(lower: i64, begin: i128) -> Result<i64, AllocError>
    ensures { IfOk result (λ later. later ≡ int_max lower begin) }
{
    narrow(greater(wide(lower), begin))
}

/// Where the epilogue begins between two numbers.
fn epilogue_begin(lower: i64, upper: i64, step: i64, buffers: u32) -> Result<i64, AllocError>
    requires positive { pos 0 <ℤ step }
    requires many { 2 ≤ buffers }
    ensures { IfOk result (λ begin. begin ≡ epilogue_begin lower upper step buffers) }
{
    let begin = before_last(lower, upper, step, buffers)?;
    not_before(lower, begin)
}

/// The parts between two numbers.
fn of_numbers(lower: i64, upper: i64, step: i64, buffers: u32) -> Result<Parts, AllocError>
    requires positive { pos 0 <ℤ step }
    requires many { 2 ≤ buffers }
    requires few { buffers ≤ 8 }
    ensures { IfOk result (λ parts. parts ≡ of_numbers lower upper step buffers) }
{
    let prologue_end = prologue_end(lower, upper, step, buffers)?;
    let main_end = main_end(upper, step, buffers)?;
    let epilogue_begin = epilogue_begin(lower, upper, step, buffers)?;
    Ok(Parts {
        prologue: (Bound::Int(lower), Bound::Int(prologue_end)),
        main: (Bound::Int(lower), Bound::Int(main_end)),
        epilogue: (Bound::Int(epilogue_begin), Bound::Int(upper)),
    })
}

/// A map with one result.
fn one_result(
    alloc: Global,
    dims: u32,
    syms: u32,
    sole: Expr,
    operands: Items<Name>,
) -> Result<Access, AllocError>
    ensures { IfOk result (λ at. at ≡ record { map = record { dims = dims; syms = syms; results = sole ∷ [] }; operands = operands }) }
{
    let mut results = Items::new(alloc);
    results.push(sole)?;
    Ok(Access {
        map: Map {
            dims,
            syms,
            results,
        },
        operands,
    })
}

/// A bound as a map over values.
fn as_map(alloc: Global, bound: &Bound) -> Result<Access, AllocError>
    ensures { IfOk result (λ at. at ≡ as_map bound.now) }
{
    match bound {
        Bound::Int(value) => one_result(alloc, 0, 0, Expr::Const(*value), Items::new(alloc)),
        Bound::Value(name) => {
            let mut operands = Items::new(alloc);
            operands.push(name.copy(alloc)?)?;
            one_result(alloc, 1, 0, Expr::Dim(0), operands)
        }
        Bound::Map(at) => at.copy(alloc),
    }
}

/// The first of a map's results, and 0 where it has none.
fn sole(alloc: Global, results: &[Expr]) -> Result<Expr, AllocError>
    ensures { IfOk result (λ expr. expr ≡ sole results.now) }
{
    match results {
        [] => Ok(Expr::Const(0)),
        [first, ..] => first.copy(alloc),
    }
}

/// The operands of a map's dimensions and those of its symbols.
fn parted(at: &Access) -> (&[Name], &[Name])
    ensures dims { result.0.now ≡ take at.now.map.dims at.now.operands }
    ensures syms { result.1.now ≡ drop at.now.map.dims at.now.operands }
{
    let operands = at.operands.as_slice();
    let dims = (at.map.dims as usize).min(operands.len());
    operands.split_at(dims)
}

/// Copies of names, in order.
fn copies(alloc: Global, names: &[Name]) -> Result<Items<Name>, AllocError>
    ensures { IfOk result (λ copies. copies ≡ names.now) }
{
    let mut copies = Items::new(alloc);
    for name in names {
        copies.push(name.copy(alloc)?)?;
    }
    Ok(copies)
}

/// Two lists of names, one behind the other.
fn both(alloc: Global, first: &[Name], second: &[Name]) -> Result<Items<Name>, AllocError>
    ensures { IfOk result (λ names. names ≡ first.now ++ second.now) }
{
    let mut names = copies(alloc, first)?;
    names.append(copies(alloc, second)?)?;
    Ok(names)
}

/// The operands of a map over the values of two maps.
fn operands_of_both(
    alloc: Global,
    lower: &Access,
    upper: &Access,
) -> Result<Items<Name>, AllocError>
    ensures { IfOk result (λ names. names ≡ (take lower.now.map.dims lower.now.operands ++ take upper.now.map.dims upper.now.operands) ++ (drop lower.now.map.dims lower.now.operands ++ drop upper.now.map.dims upper.now.operands)) }
{
    let (lower_dims, lower_syms) = parted(lower);
    let (upper_dims, upper_syms) = parted(upper);
    let mut operands = both(alloc, lower_dims, upper_dims)?;
    operands.append(both(alloc, lower_syms, upper_syms)?)?;
    Ok(operands)
}

/// A map with two results over the values of two maps.
fn over_both(
    alloc: Global,
    lower: &Access,
    upper: &Access,
    first: Expr,
    second: Expr,
) -> Result<Bound, AllocError>
    ensures { IfOk result (λ found. found ≡ bound.Map (over_both lower.now upper.now (first ∷ second ∷ []))) }
{
    let mut results = Items::new(alloc);
    results.push(first)?;
    results.push(second)?;
    let dims = leaf_behind(lower.map.dims, upper.map.dims)?;
    let syms = leaf_behind(lower.map.syms, upper.map.syms)?;
    let operands = operands_of_both(alloc, lower, upper)?;
    Ok(Bound::Map(Access {
        map: Map {
            dims,
            syms,
            results,
        },
        operands,
    }))
}

/// The result of the second of two maps, over the values of both.
fn second_of(alloc: Global, lower: &Access, upper: &Access) -> Result<Expr, AllocError>
    ensures { IfOk result (λ expr. expr ≡ second_of lower.now upper.now) }
{
    let own = sole(alloc, upper.map.results.as_slice())?;
    behind(alloc, lower.map.dims, lower.map.syms, &own)
}

/// Where the prologue ends.
fn prologue_bound(
    alloc: Global,
    lower: &Access,
    upper: &Access,
    step: i64,
    buffers: u32,
) -> Result<Bound, AllocError>
    requires many { 2 ≤ buffers }
    requires few { buffers ≤ 8 }
    ensures { IfOk result (λ found. found ≡ bound.Map (over_both lower.now upper.now (sum_of (sole lower.now.map.results) (Const (prologue_length step buffers)) ∷ second_of lower.now upper.now ∷ []))) }
{
    let length = Expr::Const(narrow(prologue_length(step, buffers))?);
    let begin = sole(alloc, lower.map.results.as_slice())?;
    let first = sum(alloc, begin, length)?;
    let second = second_of(alloc, lower, upper)?;
    over_both(alloc, lower, upper, first, second)
}

/// Where the main loop ends.
fn main_bound(alloc: Global, upper: &Access, step: i64, buffers: u32) -> Result<Bound, AllocError>
    requires many { 2 ≤ buffers }
    requires few { buffers ≤ 8 }
    ensures { IfOk result (λ found. found ≡ bound.Map (with_result upper.now (difference_of (sole upper.now.map.results) (Const (reach step buffers))))) }
{
    let reach = Expr::Const(narrow(reach(step, buffers))?);
    let end = difference(alloc, sole(alloc, upper.map.results.as_slice())?, reach)?;
    let Access { map, operands } = upper.copy(alloc)?;
    Ok(Bound::Map(one_result(alloc, map.dims, map.syms, end, operands)?))
}

/// How many whole steps lie between two bounds: `(upper - lower - 1) floordiv step`.
fn steps_between(alloc: Global, lower: &Expr, upper: Expr, step: i64) -> Result<Expr, AllocError>
    ensures { IfOk result (λ steps. steps ≡ FloorDiv (difference_of (difference_of upper lower.now) (Const (pos 1))) (Const step)) }
{
    let length = difference(alloc, upper, lower.copy(alloc)?)?;
    let last = difference(alloc, length, Expr::Const(1))?;
    let left = Boxed::new(alloc, last)?;
    Ok(Expr::FloorDiv(left, Boxed::new(alloc, Expr::Const(step))?))
}

/// Where the last turns begin, as an expression.
fn last_turns(
    alloc: Global,
    lower: &Expr,
    upper: Expr,
    step: i64,
    buffers: u32,
) -> Result<Expr, AllocError>
    requires many { 2 ≤ buffers }
    ensures { IfOk result (λ begin. begin ≡ last_turns lower.now upper step buffers) }
{
    let steps = steps_between(alloc, lower, upper, step)?;
    let before = difference(alloc, steps, Expr::Const((buffers - 2) as i64))?;
    let left = Boxed::new(alloc, before)?;
    let product = Expr::Mul(left, Boxed::new(alloc, Expr::Const(step))?);
    sum(alloc, lower.copy(alloc)?, product)
}

/// Where the epilogue begins.
fn epilogue_bound(
    alloc: Global,
    lower: &Access,
    upper: &Access,
    step: i64,
    buffers: u32,
) -> Result<Bound, AllocError>
    requires many { 2 ≤ buffers }
    ensures { IfOk result (λ found. found ≡ bound.Map (over_both lower.now upper.now (sole lower.now.map.results ∷ last_turns (sole lower.now.map.results) (second_of lower.now upper.now) step buffers ∷ []))) }
{
    let first = sole(alloc, lower.map.results.as_slice())?;
    let own = second_of(alloc, lower, upper)?;
    let second = last_turns(alloc, &first, own, step, buffers)?;
    over_both(alloc, lower, upper, first, second)
}

/// The parts of a loop with a bound that is no number.
fn of_maps(
    alloc: Global,
    lower: &Bound,
    upper: &Bound,
    step: i64,
    buffers: u32,
) -> Result<Parts, AllocError>
    requires many { 2 ≤ buffers }
    requires few { buffers ≤ 8 }
    ensures { IfOk result (λ parts. parts ≡ of_maps lower.now upper.now (as_map lower.now) (as_map upper.now) step buffers) }
{
    let first = as_map(alloc, lower)?;
    let second = as_map(alloc, upper)?;
    let prologue_end = prologue_bound(alloc, &first, &second, step, buffers)?;
    let main_end = main_bound(alloc, &second, step, buffers)?;
    let epilogue_begin = epilogue_bound(alloc, &first, &second, step, buffers)?;
    Ok(Parts {
        prologue: (lower.copy(alloc)?, prologue_end),
        main: (lower.copy(alloc)?, main_end),
        epilogue: (epilogue_begin, upper.copy(alloc)?),
    })
}

/// The three loops that a loop is split into for a ring of `buffers`, 2 to 8: with n for one fewer, the prologue has the loop's
/// first n turns, the main loop all but its last n, and the epilogue its last n; where it has fewer, prologue and epilogue have
/// all of them and the main loop none.
///
/// Two integers give integers. Any other bound that isn't the loop's own is a map whose dimensions are the lower bound's and
/// then the upper bound's, symbols likewise, with folded sums for its results.
///
/// # Errors
///
/// `AllocError` where memory isn't to be had; so it is where an integer of the parts leaves 64 bits or the dimensions of both
/// bounds are 2^32 and more, for which there is no expression.
#[tactic(auto, unfolding(crate::specs::Split::split_of))]
pub fn split(
    alloc: Global,
    lower: &Bound,
    upper: &Bound,
    step: i64,
    buffers: u32,
) -> Result<Parts, AllocError>
    requires lower_one { HasOneResult lower.now }
    requires upper_one { HasOneResult upper.now }
    requires positive { pos 0 <ℤ step }
    requires many { 2 ≤ buffers }
    requires few { buffers ≤ 8 }
    ensures { IfOk result (λ parts. parts ≡ split_of lower.now upper.now step buffers) }
{
    match lower {
        Bound::Int(first) => match upper {
            Bound::Int(end) => of_numbers(*first, *end, step, buffers),
            Bound::Value(_) => of_maps(alloc, lower, upper, step, buffers),
            Bound::Map(_) => of_maps(alloc, lower, upper, step, buffers),
        },
        Bound::Value(_) => of_maps(alloc, lower, upper, step, buffers),
        Bound::Map(_) => of_maps(alloc, lower, upper, step, buffers),
    }
}
