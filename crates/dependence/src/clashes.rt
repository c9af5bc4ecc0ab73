//! Clashes.

ghost use Rattle.std.specs.Prelude.{◌≡◌, ◌<◌, ◌≤◌, ◌+◌, length, map, IfOk};
ghost use Rattle.constraint_set.specs.Points.{LinearSystem};
ghost use Rattle.projection.specs.Answers.{Meets};
ghost use Rattle.nest_domain.specs.Boxes.{AreOver};
ghost use Rattle.dependence.specs.Clashes.{filled, clash_system, clash};

use crate::turns::later_turn;
use constraint_set::{Row, System};
use nest_domain::{Domain, Region};
use projection::{ReachFault, is_empty};
use std::alloc::{AllocError, Global};

/// The most variables of a system.
const MOST_VARS: usize = 64;

/// The row with exactly so many coefficients.
fn filled(alloc: Global, vars: u32, row: &Row) -> Result<Row, AllocError>
    ensures { IfOk result (λ out. out ≡ filled vars row.now) }
{
    let mut coefs = Vec::from_slice(alloc, &row.coefs)?;
    let zeros: Vec<i128> = vec![in alloc; 0; vars as usize]?;
    coefs.extend_from_slice(&zeros)?;
    coefs.truncate(vars as usize);
    Ok(Row {
        coefs,
        constant: row.constant,
    })
}

/// The rows as a system over so many variables.
#[tactic(auto, using(crate::proofs::Apart::filled_long))]
fn system_of(alloc: Global, vars: u32, rows: &[Row]) -> Result<System, AllocError>
    ensures { IfOk result (λ out. out ≡ record { vars = vars; rows = map (filled vars) rows.now }) }
{
    let mut out = System::new(alloc, vars);
    for row in rows {
        let row = filled(alloc, vars, row)?;
        out.push(row)?;
    }
    Ok(out)
}

/// Equal rows.
fn copied(alloc: Global, rows: &[Row]) -> Result<Vec<Row>, AllocError>
    ensures { IfOk result (λ out. out.items ≡ rows.now) }
{
    let mut out = Vec::new(alloc);
    for row in rows {
        let row = row.copy(alloc)?;
        out.push(row)?;
    }
    Ok(out)
}

/// The rows at both turns with one number a dimension in both boxes.
#[tactic(auto, using(crate::proofs::ClashSteps::over, crate::proofs::ClashSteps::no_moved, crate::proofs::ClashSteps::no_common, crate::proofs::ClashSteps::made, crate::proofs::ClashSteps::outer_of_wide, crate::proofs::ClashSteps::outer_of_over))]
fn clash_system(
    alloc: Global,
    a: &Region,
    b: &Region,
    outside: &System,
    outer: usize,
    sizes: &[u32],
    var: u32,
    distance: i64,
) -> Result<System, ReachFault>
    requires few { length sizes.now ≤ 6 }
    requires first { length a.now ≡ length sizes.now }
    requires second { length b.now ≡ length sizes.now }
    requires over { AreOver outer b.now }
    requires var { var < outer }
    requires outer { outer ≤ outside.now.vars }
    ensures { Meets (clash_system a.now b.now outside.now outer sizes.now var distance) (λ s. s) result }
{
    let vars = outside.vars() as usize;
    let turn = later_turn(vars, outer, var as usize, distance);
    let all = vars + turn.locals + sizes.len();
    if all > MOST_VARS {
        return Err(ReachFault::Rows);
    }
    let mut rows = copied(alloc, outside.rows())?;
    turn.push_rows(alloc, outside.rows(), &mut rows)?;
    turn.push_common(
        alloc,
        vars + turn.locals,
        &a.dims,
        &b.dims,
        sizes,
        &mut rows,
    )?;
    let system = system_of(alloc, all as u32, &rows)?;
    Ok(system)
}

/// Whether two boxes clash: `a` at a turn of the loop whose variable has the number `var`, and `b` where that variable is
/// `distance` more. `sizes` are those of the memref; a clamped dimension counts as whole.
#[tactic(auto, using(crate::proofs::ClashSteps::no_system, crate::proofs::ClashSteps::no_emptiness, crate::proofs::ClashSteps::told))]
pub fn clash(
    alloc: Global,
    a: &Region,
    b: &Region,
    outside: &Domain,
    sizes: &[u32],
    var: u32,
    distance: i64,
) -> Result<bool, ReachFault>
    requires few { length sizes.now ≤ 6 }
    requires first { length a.now ≡ length sizes.now }
    requires second { length b.now ≡ length sizes.now }
    requires over_first { AreOver (length outside.now.names) a.now }
    requires over { AreOver (length outside.now.names) b.now }
    requires var { var < length outside.now.names }
    requires outer { length outside.now.names ≤ outside.now.system.vars }
    ensures { Meets (clash a.now b.now outside.now.system (length outside.now.names) sizes.now var distance) (λ x. x) result }
{
    let outer = outside.names.len();
    let system = clash_system(alloc, a, b, &outside.system, outer, sizes, var, distance)?;
    let empty = is_empty(alloc, &system)?;
    Ok(!empty)
}
