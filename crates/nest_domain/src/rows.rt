// The rows of loops, conditions and locals.
ghost use Rattle.std.specs.Prelude.{◌≡◌, ◌+ℤ◌, ◌-ℤ◌, ◌*ℤ◌, neg_ℤ, length, ◌<ℤ◌, ◌≤ℤ◌, pos, true, ◌++◌, [], ◌∷◌, List, Ok};
ghost use Rattle.std.specs.List.{list_all};
ghost use Rattle.affine_expr.specs.Forms.{Form};
ghost use Rattle.affine_expr.specs.declared.linear.Join.TheVariants.{Difference};
ghost use Rattle.affine_expr.specs.Linear.{Meets, minus, join_forms, number_form};
ghost use Rattle.affine_expr.specs.Value.{floor_div, floor_mod};
ghost use Rattle.constraint_set.specs.Tidy.{all_zero};
ghost use Rattle.nest_domain.specs.Forms.{floor_rows, all_floor_rows};
ghost use Rattle.nest_domain.specs.Domains.{all_from, all_less, shifted, upper_row, last_row, upper_row_over, upper_rows, compared_rows, set_rows};
ghost use Rattle.nest_domain.specs.Kept.{GivesForms, row_ready, with_constant};

use crate::forms::one;
use crate::table::copied;
use affine_expr::{Combination, Constraint, Leaves, LinearFault, Local, Rel};
use num_row::exact_add;
use std::alloc::Global;

/// Each form of a list taken from one form.
pub fn all_from(
    alloc: Global,
    form: &Combination,
    others: &[Combination],
) -> Result<Vec<Combination>, LinearFault>
    ensures { Meets (all_from form.now others.now) (λ rows. rows.items) result }
{
    let mut rows = Vec::new(alloc);
    for other in others {
        let row = form.minus(alloc, other)?;
        rows.push(row)?;
    }
    Ok(rows)
}

/// Each form of a list less one form.
pub fn all_less(
    alloc: Global,
    others: &[Combination],
    form: &Combination,
) -> Result<Vec<Combination>, LinearFault>
    ensures { Meets (all_less others.now form.now) (λ rows. rows.items) result }
{
    let mut rows = Vec::new(alloc);
    for other in others {
        let row = other.minus(alloc, form)?;
        rows.push(row)?;
    }
    Ok(rows)
}

/// A form with a sum in place of its constant.
#[tactic(auto, unfolding(crate::specs::Kept::with_constant))]
fn with_constant(form: Combination, base: i128, more: i128) -> Result<Combination, LinearFault>
    ensures { Meets (with_constant form (base +ℤ more)) (λ f. f) result }
{
    let Combination { coefs, constant: _ } = form;
    let Some(constant) = exact_add(base, more) else {
        return Err(LinearFault::Wide);
    };
    Ok(Combination { coefs, constant })
}

/// The row of a variable below an upper result.
#[tactic(auto, unfolding(crate::specs::Kept::with_constant))]
fn upper_row(
    alloc: Global,
    variable: &Combination,
    upper: &Combination,
) -> Result<Combination, LinearFault>
    ensures { Meets (upper_row variable.now upper.now) (λ f. f) result }
{
    let top = with_constant(copied(upper)?, upper.constant, -1)?;
    top.minus(alloc, variable)
}

fn less_one(value: i128) -> i128
    requires { pos 0 ≤ℤ value }
    ensures { result ≡ value -ℤ pos 1 }
{
    value - 1
}

/// What the number before one leaves over a step.
fn rest_before(number: i128, step: i64) -> i128
    requires { pos 0 <ℤ step }
    ensures rest { result ≡ floor_mod (number -ℤ pos 1) step }
    ensures low { pos 0 ≤ℤ result }
{
    let rest = number.rem_euclid(step as i128);
    if rest == 0 {
        less_one(step as i128)
    } else {
        less_one(rest)
    }
}

/// Whether a form names no variable.
fn is_number(coefs: &[i128]) -> bool
    ensures { result ≡ all_zero coefs.now }
{
    let mut all = true;
    for coef in coefs {
        all = all && *coef == 0;
    }
    all
}

/// A number that isn't negative, and one more, negated.
fn below_zero(number: i128) -> i128
    requires { pos 0 ≤ℤ number }
    ensures { result ≡ neg_ℤ (pos 1) -ℤ number }
{
    -1 - number
}

/// The last turn below an upper result that lies a number above the lower one.
///
/// Its constant is the upper result's less one and what is left over the steps, so no number is formed that the form hasn't.
fn last_turn(
    lower: &Combination,
    step: i64,
    upper: &Combination,
    gap: &Combination,
) -> Result<Combination, LinearFault>
    requires gap { minus upper.now lower.now ≡ Ok gap.now }
    requires step { pos 0 <ℤ step }
    ensures { Meets (shifted lower.now (floor_div (gap.now.constant -ℤ pos 1) step *ℤ step)) (λ f. f) result }
{
    let rest = rest_before(gap.constant, step);
    with_constant(copied(lower)?, upper.constant, below_zero(rest))
}

/// The row of a variable below the last turn, where the difference of the bounds is a number.
fn last_row(
    alloc: Global,
    lower: &Combination,
    step: i64,
    variable: &Combination,
    upper: &Combination,
    gap: &Combination,
) -> Result<Combination, LinearFault>
    requires gap { minus upper.now lower.now ≡ Ok gap.now }
    requires step { pos 0 <ℤ step }
    ensures { Meets (last_row lower.now step variable.now upper.now gap.now) (λ f. f) result }
{
    if !is_number(&gap.coefs) {
        return upper_row(alloc, variable, upper);
    }
    let top = last_turn(lower, step, upper, gap)?;
    top.minus(alloc, variable)
}

/// The row of an upper result, over the loop's lower ones.
fn upper_row_over(
    alloc: Global,
    lowers: &[Combination],
    step: i64,
    variable: &Combination,
    upper: &Combination,
) -> Result<Combination, LinearFault>
    requires { pos 0 <ℤ step }
    ensures { Meets (upper_row_over lowers.now step variable.now upper.now) (λ f. f) result }
{
    match lowers {
        [lower] => {
            let gap = upper.minus(alloc, lower)?;
            last_row(alloc, lower, step, variable, upper, &gap)
        }
        _ => upper_row(alloc, variable, upper),
    }
}

/// The rows of a loop's upper results.
pub fn upper_rows(
    alloc: Global,
    lowers: &[Combination],
    step: i64,
    variable: &Combination,
    uppers: &[Combination],
) -> Result<Vec<Combination>, LinearFault>
    requires { pos 0 <ℤ step }
    ensures { Meets (upper_rows lowers.now step variable.now uppers.now) (λ rows. rows.items) result }
{
    let mut rows = Vec::new(alloc);
    for upper in uppers {
        let row = upper_row_over(alloc, lowers, step, variable, upper)?;
        rows.push(row)?;
    }
    Ok(rows)
}

pub(crate) fn two(
    alloc: Global,
    first: Combination,
    second: Combination,
) -> Result<Vec<Combination>, LinearFault>
    ensures { Meets {A = List Form} (Ok (first ∷ second ∷ [])) (λ rows. rows.items) result }
{
    let mut rows = Vec::new(alloc);
    rows.push(first)?;
    rows.push(second)?;
    Ok(rows)
}

/// The rows of a constraint between two forms, an equation two.
fn compared_rows(
    alloc: Global,
    rel: Rel,
    left: &Combination,
    right: &Combination,
) -> Result<Vec<Combination>, LinearFault>
    ensures { Meets (compared_rows rel left.now right.now) (λ rows. rows.items) result }
{
    match rel {
        Rel::Ge => one(alloc, left.minus(alloc, right)?),
        Rel::Le => one(alloc, right.minus(alloc, left)?),
        Rel::Eq => {
            let above = left.minus(alloc, right)?;
            let below = right.minus(alloc, left)?;
            two(alloc, above, below)
        }
    }
}

/// The rows of a set over the forms of its operands.
pub(crate) fn set_rows(
    alloc: Global,
    constraints: &[Constraint],
    leaves: &Leaves<'_>,
    locals: &mut Vec<Local>,
) -> Result<Vec<Combination>, LinearFault>
    requires { list_all row_ready constraints.now ≡ true }
    ensures { GivesForms (set_rows leaves.now.width leaves.now.dims.now leaves.now.syms.now constraints.now locals.old.items) locals.new.items (λ rows. rows.items) result }
{
    let mut rows = Vec::new(alloc);
    for constraint in constraints {
        let left = constraint.left.formed(alloc, leaves, locals)?;
        let right = constraint.right.formed(alloc, leaves, locals)?;
        let mut compared = compared_rows(alloc, constraint.rel, &left, &right)?;
        rows.append(&mut compared)?;
    }
    Ok(rows)
}

/// The form with the coefficient of one more variable.
fn with_last(form: Combination, coef: i128) -> Result<Combination, LinearFault>
    ensures { Meets {A = Form} (Ok (record { coefs = form.coefs ++ coef ∷ []; constant = form.constant })) (λ f. f) result }
{
    let Combination {
        mut coefs,
        constant,
    } = form;
    coefs.push(coef)?;
    Ok(Combination { coefs, constant })
}

/// A number less a form.
fn taken_from(alloc: Global, number: i128, form: &Combination) -> Result<Combination, LinearFault>
    ensures { Meets (join_forms Difference (number_form (length form.now.coefs) number) form.now) (λ f. f) result }
{
    let top = Combination::of_number(alloc, form.coefs.len(), number)?;
    top.minus(alloc, form)
}

/// The form that a local is the floor of.
fn form_under(local: &Local) -> Result<Combination, LinearFault>
    ensures { Meets {A = Form} (Ok (record { coefs = local.now.coefs; constant = local.now.constant })) (λ f. f) result }
{
    Ok(Combination {
        coefs: local.coefs.clone()?,
        constant: local.constant,
    })
}

pub(crate) fn widened(number: i64) -> i128
    ensures { result ≡ number }
{
    number as i128
}

fn one_less(number: i64) -> i128
    ensures { result ≡ number -ℤ pos 1 }
{
    number as i128 - 1
}

fn negated(number: i64) -> i128
    ensures { result ≡ neg_ℤ number }
{
    -(number as i128)
}

/// The two rows of a local.
fn floor_rows(alloc: Global, local: &Local) -> Result<Vec<Combination>, LinearFault>
    ensures { Meets (floor_rows local.now) (λ rows. rows.items) result }
{
    let form = form_under(local)?;
    let high = taken_from(alloc, one_less(local.divisor), &form)?;
    let low = with_last(form, negated(local.divisor))?;
    let high = with_last(high, widened(local.divisor))?;
    two(alloc, low, high)
}

/// The rows of locals, in their order.
pub fn all_floor_rows(alloc: Global, locals: &[Local]) -> Result<Vec<Combination>, LinearFault>
    ensures { Meets (all_floor_rows locals.now) (λ rows. rows.items) result }
{
    let mut rows = Vec::new(alloc);
    for local in locals {
        let mut both = floor_rows(alloc, local)?;
        rows.append(&mut both)?;
    }
    Ok(rows)
}
