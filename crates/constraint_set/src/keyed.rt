//! Rows in a table that is keyed by their coefficients.

ghost use Rattle.std.specs.Prelude.{◌≡◌, ◌<◌, Some, None, [], length, slice_get, OnOk, OnErr};
ghost use Rattle.std.specs.Map.{lookup};
ghost use Rattle.constraint_set.specs.Points.{LinearSystem, LinearRow, AreWide};
ghost use Rattle.constraint_set.specs.Tidy.{added, same_coefs, AreDistinct};
ghost use Rattle.constraint_set.specs.Table.{IsLesser};

use crate::linear::Row;
use indexmap::IndexMap;
use std::alloc::{AllocError, Global};
use std::marker::Model;

/// Rows with distinct coefficients, in the order in which these came. Of rows with equal coefficients the one with the
/// least constant says all.
#[derive(Drop)]
pub struct Rows {
    vars: u32,
    table: IndexMap<Vec<i128>, i128>,
}

impl Model for Rows {
    ghost use Rattle.constraint_set.specs.Points.{LinearSystem, AreWide};
    ghost use Rattle.constraint_set.specs.Tidy.{AreDistinct};
    ghost use Rattle.constraint_set.specs.Table.{row_list};

    ghost Value = { LinearSystem };

    ghost view = { λ r. record { vars = r.vars; rows = row_list r.table.entries } };

    ghost invariant = { λ r. AreWide r.vars (row_list r.table.entries) × AreDistinct (row_list r.table.entries) };
}

impl Rows {
    /// No rows, over so many variables.
    pub fn new(alloc: Global, vars: u32) -> Rows
        ensures { result ≡ record { vars = vars; rows = [] } }
    {
        Rows {
            vars,
            table: IndexMap::new(alloc),
        }
    }

    /// Adds a row: where its coefficients are there, that place keeps the lesser constant, and else it goes last. Where
    /// memory is wanting, the rows are as before.
    pub fn add(&mut self, row: Row) -> Result<(), AllocError>
        requires { length row.coefs ≡ self.old.vars }
        ensures ok { OnOk result (self.new ≡ record self.old { rows = added self.old.rows row }) }
        ensures err { OnErr result (self.new ≡ self.old) }
    {
        let Row { coefs, constant } = row;
        let least = lesser(&self.table, &coefs, constant);
        self.table.insert(coefs, least)?;
        Ok(())
    }

    /// How many variables there are.
    pub fn vars(&self) -> u32
        ensures vars { result ≡ self.now.vars }
        ensures wide { AreWide self.now.vars self.now.rows }
    {
        self.vars
    }

    /// How many rows there are.
    pub fn count(&self) -> usize
        ensures count { result ≡ length self.now.rows }
        ensures distinct { AreDistinct self.now.rows }
        ensures wide { AreWide self.now.vars self.now.rows }
    {
        self.table.len()
    }

    /// The coefficients and the constant of a row.
    pub fn row(&self, at: usize) -> (&[i128], i128)
        requires { at < length self.now.rows }
        ensures { slice_get self.now.rows at ≡ Some (record { coefs = result.0.now; constant = result.1 }) }
    {
        let Some((coefs, constant)) = self.table.get_index(at) else {
            unreachable!()
        };
        (coefs.as_slice(), *constant)
    }
}

/// The lesser of a constant and the one that the table keeps for the same coefficients.
fn lesser(table: &IndexMap<Vec<i128>, i128>, coefs: &Vec<i128>, constant: i128) -> i128
    ensures { IsLesser (lookup (λ k. same_coefs coefs.now.items k.items) table.now.entries) constant result }
{
    match table.get(coefs) {
        Some(kept) => (*kept).min(constant),
        None => constant,
    }
}
