//! The system without some of its variables.

ghost use Rattle.std.specs.Prelude.{◌≡◌, ◌<◌, pos, IfOk};
ghost use Rattle.constraint_set.specs.Lists.{Each};
ghost use Rattle.constraint_set.specs.Points.{LinearSystem, coef};
ghost use Rattle.constraint_set.specs.Elimination.{eliminated};
ghost use Rattle.constraint_set.specs.Projection.{Projects, Lifts};
ghost use Rattle.projection.specs.Answers.{Meets};

use crate::fault::ReachFault;
use crate::steps::project;
use constraint_set::{Row, Rows, System};
use std::alloc::{AllocError, Global};

/// Eliminates variables in the order of their list. They keep their places, with the coefficient 0. A variable may stand
/// in the list more than once.
///
/// The result has the system's scaled points, but for the eliminated places: each scaled point of the system is one of the
/// result, whatever stands in these places, and each of the result lifts to one of the system.
pub fn eliminate(alloc: Global, system: &System, vars: &[u32]) -> Result<System, ReachFault>
    requires { Each (λ k. k < system.now.vars) vars.now }
    ensures value { Meets (eliminated system.now vars.now) (λ out. out.rows) result }
    ensures vars { IfOk result (λ out. out.vars ≡ system.now.vars) }
    ensures gone { IfOk result (λ out. Each (λ k. Each (λ r. coef k r ≡ pos 0) out.rows) vars.now) }
    ensures projects { IfOk result (λ out. Projects vars.now system.now out) }
    ensures lifts { IfOk result (λ out. Lifts vars.now system.now out) }
{
    let _wide = system.vars();
    let rows = project(alloc, system, vars)?;
    let out = listed(alloc, &rows)?;
    Ok(out)
}

/// The rows of a table as a system.
fn listed(alloc: Global, rows: &Rows) -> Result<System, AllocError>
    ensures { IfOk result (λ out. out ≡ rows.now) }
{
    let mut out = System::new(alloc, rows.vars());
    for at in 0..rows.count() {
        let (coefs, constant) = rows.row(at);
        let coefs = Vec::from_slice(alloc, coefs)?;
        out.push(Row { coefs, constant })?;
    }
    Ok(out)
}
