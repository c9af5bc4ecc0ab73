//! One row.

ghost use Rattle.std.specs.Prelude.{◌≡◌, IfOk};

use std::alloc::{AllocError, Global};
use std::marker::Model;

/// The inequality `coefs . x + constant >= 0`, with a coefficient for each variable.
#[derive(Drop)]
pub struct Row {
    pub coefs: Vec<i128>,
    pub constant: i128,
}

impl Model for Row {
    ghost use Rattle.constraint_set.specs.Points.{LinearRow};

    ghost Value = { LinearRow };

    ghost view = { λ r. record { coefs = r.coefs.items; constant = r.constant } };
}

impl Row {
    /// An equal row.
    pub fn copy(&self, alloc: Global) -> Result<Row, AllocError>
        ensures { IfOk result (λ row. row ≡ self.now) }
    {
        let coefs = Vec::from_slice(alloc, &self.coefs)?;
        Ok(Row {
            coefs,
            constant: self.constant,
        })
    }
}
