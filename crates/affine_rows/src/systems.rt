// Systems of rows, elimination, reach and emptiness.
ghost use Rattle.std.specs.Prelude.{◌≡◌, IfOk};

use constraint_set::{Row, Rows, System};
use projection::{ReachFault, Reached, eliminate, is_empty, reach};
use std::alloc::{AllocError, Global};
use std::test::Fail;

/// Coefficients and a constant.
type Numbers<'a> = (&'a [i128], i128);

/// The system of the rows that have a coefficient for each variable.
fn system_of(alloc: Global, vars: u32, rows: &[Numbers<'_>]) -> Result<System, AllocError>
    ensures { IfOk result (λ system. system.vars ≡ vars) }
{
    let mut system = System::new(alloc, vars);
    for (coefs, constant) in rows {
        if coefs.len() == vars as usize {
            let coefs = Vec::from_slice(alloc, coefs)?;
            system.push(Row {
                coefs,
                constant: *constant,
            })?;
        }
    }
    Ok(system)
}

/// Whether the rows of a system are these, in order.
fn has_rows(system: &System, rows: &[Numbers<'_>]) -> bool {
    let found = system.rows();
    if found.len() != rows.len() {
        return false;
    }
    for (row, (coefs, constant)) in found.iter().zip(rows) {
        if row.coefs.as_slice() != *coefs || row.constant != *constant {
            return false;
        }
    }
    true
}

const TILED: [Numbers<'static>; 3] = [(&[1, -2], 0), (&[-1, 0], 7), (&[0, 2], -1)];

#[test]
fn a_variable_is_eliminated_and_reached(rt: HostRuntime) -> Result<(), Fail> {
    let alloc = rt.alloc();
    let system = system_of(alloc, 2, &TILED)?;
    let Ok(out) = eliminate(alloc, &system, &[1]) else {
        panic!(rt; "no elimination");
    };
    assert!(rt; has_rows(&out, &[(&[-1, 0], 7), (&[1, 0], -1)]));
    assert!(rt;
        matches!(
            reach(alloc, &system, &[0, 1], 0),
            Ok(Reached::Between {
                least: 1,
                greatest: 3
            })
        )
    );
    assert!(rt; matches!(is_empty(alloc, &system), Ok(false)));
    assert_eq!(rt; system.holds(&[4, 2], 1), Some(true));
    assert_eq!(rt; system.holds(&[2, 1], 2), Some(true));
    assert_eq!(rt; system.holds(&[4, 3], 1), Some(false));
    assert_eq!(rt; system.holds(&[i128::MAX, 3], 1), Some(false));
    assert_eq!(rt; system.holds(&[4, i128::MAX], 1), None);
    Ok(())
}

#[test]
fn a_system_without_a_point_is_empty(rt: HostRuntime) -> Result<(), Fail> {
    let alloc = rt.alloc();
    let system = system_of(alloc, 1, &[(&[1], -1), (&[-1], 0)])?;
    assert!(rt; matches!(is_empty(alloc, &system), Ok(true)));
    assert!(rt; matches!(reach(alloc, &system, &[1], 0), Ok(Reached::Never)));
    // a rational point, and no integer one
    let half = system_of(alloc, 1, &[(&[2], -1), (&[-2], 1)])?;
    assert!(rt; matches!(is_empty(alloc, &half), Ok(false)));
    Ok(())
}

#[test]
fn too_many_rows_are_refused(rt: HostRuntime) -> Result<(), Fail> {
    let alloc = rt.alloc();
    let mut system = System::new(alloc, 2);
    for sign in &[1, -1] {
        for number in 0..46u8 {
            let coefs = Vec::from_slice(alloc, &[*sign, i128::from(number)])?;
            if coefs.len() == system.vars() as usize {
                system.push(Row { coefs, constant: 0 })?;
            }
        }
    }
    if system.vars() == 2 {
        assert!(rt; matches!(eliminate(alloc, &system, &[0]), Err(ReachFault::Rows)));
    }
    let wide = System::new(alloc, 65);
    assert!(rt; matches!(is_empty(alloc, &wide), Err(ReachFault::Rows)));
    Ok(())
}

#[test]
fn numbers_past_128_bits_are_refused(rt: HostRuntime) -> Result<(), Fail> {
    let alloc = rt.alloc();
    let far = 549_755_813_888;
    let system = system_of(
        alloc,
        3,
        &[
            (&[1, 0, 0], 0),
            (&[-1, 0, 0], 1),
            (&[0, 1, 0], 0),
            (&[0, -1, 0], 1),
            (&[0, 0, 1], 0),
            (&[0, 0, -1], 1),
            (&[far, far, 1], 0),
            (&[far, -far, 1], 0),
            (&[2, 1, -far], 0),
        ],
    )?;
    assert!(rt; eliminate(alloc, &system, &[2]).is_ok());
    assert!(rt; matches!(eliminate(alloc, &system, &[2, 1]), Err(ReachFault::Wide)));
    assert!(rt; matches!(is_empty(alloc, &system), Err(ReachFault::Wide)));
    Ok(())
}

#[test]
fn equal_coefficients_keep_the_least_constant(rt: HostRuntime) -> Result<(), Fail> {
    let alloc = rt.alloc();
    let mut rows = Rows::new(alloc, 2);
    rows.add(Row {
        coefs: Vec::from_slice(alloc, &[1, 0])?,
        constant: 5,
    })?;
    rows.add(Row {
        coefs: Vec::from_slice(alloc, &[0, 1])?,
        constant: 1,
    })?;
    rows.add(Row {
        coefs: Vec::from_slice(alloc, &[1, 0])?,
        constant: 3,
    })?;
    rows.add(Row {
        coefs: Vec::from_slice(alloc, &[1, 0])?,
        constant: 4,
    })?;
    assert_eq!(rt; rows.count(), 2);
    let (first, least) = rows.row(0);
    assert!(rt; first == [1, 0].as_slice() && least == 3);
    let (second, constant) = rows.row(1);
    assert!(rt; second == [0, 1].as_slice() && constant == 1);
    Ok(())
}
