//! The rows of a place at a later turn of a loop.

ghost use Rattle.std.specs.Prelude.{◌≡◌, ◌<◌, ◌≤◌, ◌-◌, length, IfOk};
ghost use Rattle.constraint_set.specs.Lists.{Each};
ghost use Rattle.projection.specs.Answers.{Meets, Appends};
ghost use Rattle.dependence.specs.Clashes.{spread, later, all_later};

use constraint_set::Row;
use exact_sums::add_product;
use projection::ReachFault;
use std::alloc::{AllocError, Global};

/// The later of two turns of a loop, over so many outer variables and then so many locals. The loop's variable has the number
/// `var`; the locals of the later turn stand behind those of the first.
#[derive(Clone, Copy)]
pub(crate) struct LaterTurn {
    pub outer: usize,
    pub locals: usize,
    pub var: usize,
    pub distance: i64,
}

/// The later turn of the loop whose variable has the number `var`, over a system whose first variables are the outer ones.
pub(crate) fn later_turn(vars: usize, outer: usize, var: usize, distance: i64) -> LaterTurn
    requires { outer ≤ vars }
    ensures { result ≡ record { outer = outer; locals = vars - outer; var = var; distance = distance } }
{
    LaterTurn {
        outer,
        locals: vars - outer,
        var,
        distance,
    }
}

/// So many variables put in behind the first ones.
#[tactic(auto, using(crate::proofs::Spreads::spread_is))]
fn spread(
    alloc: Global,
    outer: usize,
    locals: usize,
    coefs: &[i128],
) -> Result<Vec<i128>, AllocError>
    requires { outer ≤ length coefs.now }
    ensures { IfOk result (λ out. out.items ≡ spread outer locals coefs.now) }
{
    let mut out = Vec::from_slice(alloc, &coefs[..outer])?;
    let zeros: Vec<i128> = vec![in alloc; 0; locals]?;
    out.extend_from_slice(&zeros)?;
    out.extend_from_slice(&coefs[outer..])?;
    Ok(out)
}

impl LaterTurn {
    /// The row at the later turn.
    pub(crate) fn row(self, alloc: Global, row: &Row) -> Result<Row, ReachFault>
        requires outer { self.outer ≤ length row.now.coefs }
        requires var { self.var < self.outer }
        ensures { Meets (later self.outer self.locals self.var self.distance row.now) (λ r. r) result }
    {
        let distance = self.distance as i128;
        let Some(constant) = add_product(row.constant, row.coefs[self.var], distance) else {
            return Err(ReachFault::Wide);
        };
        let coefs = spread(alloc, self.outer, self.locals, &row.coefs)?;
        Ok(Row { coefs, constant })
    }

    /// Appends the rows at the later turn.
    pub(crate) fn push_rows(
        self,
        alloc: Global,
        rows: &[Row],
        out: &mut Vec<Row>,
    ) -> Result<(), ReachFault>
        requires outer { Each (λ r. self.outer ≤ length r.coefs) rows.now }
        requires var { self.var < self.outer }
        ensures { Appends (all_later self.outer self.locals self.var self.distance rows.now) out.old.items out.new.items result }
    {
        for row in rows {
            let moved = self.row(alloc, row)?;
            out.push(moved)?;
        }
        Ok(())
    }
}
