//! The rules that rows are brought under: none that says nothing, each divided by its divisor, one for each list of
//! coefficients.

ghost use Rattle.std.specs.Prelude.{◌≡◌, ℕ, ◌<◌, pos, map, int_div, length, [], ◌∷◌, IfOk, OnOk};
ghost use Rattle.constraint_set.specs.Points.{LinearRow, LinearSystem, AreWide};
ghost use Rattle.std.specs.Ordering.{int_eq};
ghost use Rattle.constraint_set.specs.Tidy.{all_zero, is_idle, divisor, divisor_from, divided, reduced, merged, tidied};

use constraint_set::{Row, Rows};
use num_row::gcd;
use std::alloc::{AllocError, Global};

/// The quotient toward zero by a divisor of any size.
fn quotient(number: i128, divisor: u128) -> i128
    requires { 0 < divisor }
    ensures { result ≡ int_div number (pos divisor) }
{
    if divisor <= i128::MAX as u128 {
        number / divisor as i128
    } else if number.unsigned_abs() == divisor {
        -1
    } else {
        0
    }
}

/// Whether a row says nothing: it has no coefficient but 0, and its constant isn't negative.
fn says_nothing(row: &Row) -> bool
    ensures { result ≡ is_idle row.now }
{
    are_zero(&row.coefs) && 0 <= row.constant
}

fn are_zero(coefs: &[i128]) -> bool
    ensures { result ≡ all_zero coefs.now }
{
    for coef in coefs {
        if !is_zero(*coef) {
            return false;
        }
    }
    true
}

fn is_zero(number: i128) -> bool
    ensures { result ≡ int_eq number (pos 0) }
{
    number == 0
}

/// The greatest common divisor of a row's coefficients and its constant.
fn divisor_of(row: &Row) -> u128
    ensures { result ≡ divisor row.now }
{
    common_divisor(row.constant.unsigned_abs(), &row.coefs)
}

/// The greatest common divisor of a first number and the sizes of a list.
#[tactic(auto, using(constraint_set::proofs::Tidying::one_divides))]
fn common_divisor(first: u128, numbers: &[i128]) -> u128
    ensures { result ≡ divisor_from first numbers.now }
{
    let mut shared = first;
    for number in numbers {
        if shared == 1 {
            return 1;
        }
        shared = gcd(shared, number.unsigned_abs());
    }
    shared
}

/// The quotients of all numbers of a list.
fn quotients(alloc: Global, numbers: &[i128], divisor: u128) -> Result<Vec<i128>, AllocError>
    requires { 0 < divisor }
    ensures { IfOk result (λ out. out.items ≡ map (λ x. int_div x (pos divisor)) numbers.now) }
{
    numbers
        .iter()
        .map(|number| quotient(*number, divisor))
        .collect(alloc)
}

/// The row divided by a number.
#[tactic(auto, using(constraint_set::proofs::Tidying::divided_by_one))]
fn divide(alloc: Global, row: &Row, divisor: u128) -> Result<Row, AllocError>
    requires { 0 < divisor }
    ensures { IfOk result (λ out. out ≡ divided divisor row.now) }
{
    if divisor == 1 {
        return row.copy(alloc);
    }
    let coefs = quotients(alloc, &row.coefs, divisor)?;
    Ok(Row {
        coefs,
        constant: quotient(row.constant, divisor),
    })
}

/// Adds a row under the rules to rows that are.
#[tactic(auto, using(constraint_set::proofs::Tidying::divisor_positive))]
fn add_under_rules(alloc: Global, out: &mut Rows, row: &Row) -> Result<(), AllocError>
    requires { length row.now.coefs ≡ out.old.vars }
    ensures { OnOk result (out.new ≡ record out.old { rows = merged out.old.rows (reduced (row.now ∷ [])) }) }
{
    if says_nothing(row) {
        return Ok(());
    }
    let reduced = divide(alloc, row, divisor_of(row))?;
    out.add(reduced)
}

/// The rows under the rules.
#[tactic(auto, unfolding(constraint_set::specs::Tidy::tidied))]
pub(crate) fn tidy(alloc: Global, vars: u32, rows: &[Row]) -> Result<Rows, AllocError>
    requires { AreWide vars rows.now }
    ensures { IfOk result (λ out. out ≡ record { vars = vars; rows = tidied rows.now }) }
{
    let mut out = Rows::new(alloc, vars);
    for row in rows {
        add_under_rules(alloc, &mut out, row)?;
    }
    Ok(out)
}
