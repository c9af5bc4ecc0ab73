//! A system as the list of its rows.

ghost use Rattle.std.specs.Prelude.{◌≡◌, ◌<ℤ◌, pos, [], ◌∷◌, ◌++◌, length, OnOk, OnErr, IfSome, IsTrue, ◌↔◌, not, int_lt};
ghost use Rattle.constraint_set.specs.Points.{LinearSystem, AreWide, PointOf, fitting_value, dot_from, all_hold};

use crate::linear::Row;
use num_row::{exact_add, exact_mul};
use std::alloc::{AllocError, Global};
use std::marker::Model;

/// Rows over the variables 0 up to a number of them. All rows hold at the system's points.
#[derive(Drop)]
pub struct System {
    vars: u32,
    rows: Vec<Row>,
}

impl Model for System {
    ghost use Rattle.constraint_set.specs.Points.{LinearSystem, AreWide};

    ghost Value = { LinearSystem };

    ghost view = { λ s. record { vars = s.vars; rows = s.rows.items } };

    ghost invariant = { λ s. AreWide s.vars s.rows.items };
}

impl System {
    /// A system without a row: each point is one of it.
    pub fn new(alloc: Global, vars: u32) -> System
        ensures { result ≡ record { vars = vars; rows = [] } }
    {
        System {
            vars,
            rows: Vec::new(alloc),
        }
    }

    /// Appends a row. Where memory is wanting, the system is as before.
    pub fn push(&mut self, row: Row) -> Result<(), AllocError>
        requires { length row.coefs ≡ self.old.vars }
        ensures ok { OnOk result (self.new ≡ record self.old { rows = self.old.rows ++ row ∷ [] }) }
        ensures err { OnErr result (self.new ≡ self.old) }
    {
        self.rows.push(row)?;
        Ok(())
    }

    /// The rows, in the order in which they were pushed.
    pub fn rows(&self) -> &[Row]
        ensures rows { result.now ≡ self.now.rows }
        ensures wide { AreWide self.now.vars self.now.rows }
    {
        self.rows.as_slice()
    }

    /// How many variables there are.
    pub fn vars(&self) -> u32
        ensures vars { result ≡ self.now.vars }
        ensures wide { AreWide self.now.vars self.now.rows }
    {
        self.vars
    }

    /// Whether `point` over `scale` is a point of the system: a scaled point, whose products are formed in 128 bits and
    /// added row by row from the left, the constant's last. None where one of these numbers doesn't fit, in any row.
    pub fn holds(&self, point: &[i128], scale: i128) -> Option<bool>
        requires positive { pos 0 <ℤ scale }
        requires whole { length point.now ≡ self.now.vars }
        ensures value { result ≡ all_hold self.now.rows point.now scale }
        ensures exact { IfSome result (λ holds. IsTrue holds ↔ PointOf self.now point.now scale) }
    {
        each_holds(&self.rows, point, scale)
    }
}

/// Whether each row holds at a scaled point.
fn each_holds(rows: &[Row], point: &[i128], scale: i128) -> Option<bool>
    requires { AreWide (length point.now) rows.now }
    ensures { result ≡ all_hold rows.now point.now scale }
{
    let mut all = true;
    for row in rows {
        let value = value_of(row, point, scale)?;
        all = all && is_met(value);
    }
    Some(all)
}

/// The value of a row at a scaled point.
fn value_of(row: &Row, point: &[i128], scale: i128) -> Option<i128>
    requires { length row.now.coefs ≡ length point.now }
    ensures { result ≡ fitting_value row.now point.now scale }
{
    let sum = sum_of(&row.coefs, point)?;
    let product = exact_mul(row.constant, scale)?;
    exact_add(sum, product)
}

/// The sum of the products of two lists.
fn sum_of(coefs: &[i128], point: &[i128]) -> Option<i128>
    requires { length coefs.now ≡ length point.now }
    ensures { result ≡ dot_from (pos 0) coefs.now point.now }
{
    let mut sum = 0;
    for i in 0..coefs.len() {
        let product = exact_mul(coefs[i], point[i])?;
        sum = exact_add(sum, product)?;
    }
    Some(sum)
}

/// Whether a value isn't negative.
fn is_met(value: i128) -> bool
    ensures { result ≡ not (int_lt value (pos 0)) }
{
    0 <= value
}
