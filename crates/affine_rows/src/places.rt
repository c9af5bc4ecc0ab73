// Rows of a loop and of an access, whether two boxes clash, and the loops that a ring splits a loop into.
ghost use Rattle.std.specs.Prelude.{◌≡◌, true, IfOk, length};
ghost use Rattle.affine_ast.specs.Nest.{nest};
ghost use Rattle.nest_domain.specs.Accessing.{NamesAccess};
ghost use Rattle.nest_domain.specs.Boxes.{AreOver};
ghost use Rattle.nest_domain.specs.Ways.{at_path};

use crate::regions::names_loop;
use affine_ast::{Bound, Path, Verified, What};
use affine_text::parse;
use affine_verify::verify;
use constraint_set::Row;
use dependence::clash;
use loop_forms::split;
use nest_domain::{Domain, Region, RegionDim, access_of, domain_of, way_to};
use sqlite_items::Items;
use std::alloc::{AllocError, Global};
use std::test::Fail;

/// A nest of two loops over tiles, and a load within them.
const TILED: &[u8] =
    b"func.func @f(%A: memref<64xi32>) {\n  affine.for %i = 0 to 8 {\n    affine.for %j = 0 to 4 {\n      %0 = affine.load %A[%i * 8 + %j] : memref<64xi32>\n    }\n  }\n  return\n}\n";

/// Whether a path names a load.
fn names_load(alloc: Global, module: &Verified, at: &Path) -> Result<bool, AllocError>
    ensures { IfOk result (λ named. named ≡ true → NamesAccess (at_path (nest «module».now.inner.body) at.now.steps)) }
{
    let module = module.module();
    let Some(found) = way_to(alloc, module.body.as_slice(), at)? else {
        return Ok(false);
    };
    let Some(first) = found.here.first() else {
        return Ok(false);
    };
    match &first.what {
        What::Load { .. } => Ok(true),
        _ => Ok(false),
    }
}

/// Coefficients and a constant.
type Numbers<'a> = (&'a [i128], i128);

/// Whether rows are these, in order.
fn are(found: &[Row], rows: &[Numbers<'_>]) -> bool {
    if found.len() != rows.len() {
        return false;
    }
    for (row, (coefs, constant)) in found.iter().zip(rows) {
        if row.coefs.as_slice() != *coefs || row.constant != *constant {
            return false;
        }
    }
    true
}

const OUTER: [Numbers<'static>; 2] = [(&[1], 0), (&[-1], 7)];

const BOTH: [Numbers<'static>; 4] = [(&[1, 0], 0), (&[-1, 0], 7), (&[0, 1], 0), (&[0, -1], 3)];

#[test]
fn rows_of_places_are_found(rt: HostRuntime) -> Result<(), Fail> {
    let alloc = rt.alloc();
    let module = verify(alloc, parse(alloc, TILED)?)?;
    let inner = Path {
        steps: Items::from_slice(alloc, &[(0, false), (0, false)])?,
    };
    if !names_loop(alloc, &module, &inner)? {
        panic!(rt; "no loop");
    }
    let Ok(outside) = domain_of(alloc, &module, &inner) else {
        panic!(rt; "no rows of the loop");
    };
    assert!(rt; are(outside.system.rows(), &OUTER));
    assert_eq!(rt; outside.names.len(), 1);
    let load = Path {
        steps: Items::from_slice(alloc, &[(0, false), (0, false), (0, false)])?,
    };
    if !names_load(alloc, &module, &load)? {
        panic!(rt; "no access");
    }
    let Ok(access) = access_of(alloc, &module, &load) else {
        panic!(rt; "no rows of the access");
    };
    assert!(rt; are(access.domain.system.rows(), &BOTH));
    assert!(rt; are(access.forms.as_slice(), &[(&[8, 1], 0)]));
    Ok(())
}

/// A box of four elements, from a multiple of the outer variable on.
fn four_from(alloc: Global, coef: i128) -> Result<Region, AllocError>
    ensures few { IfOk result (λ made. length made ≡ 1) }
    ensures over { IfOk result (λ made. AreOver 1 made) }
{
    let coefs = vec![in alloc; coef]?;
    let dim = RegionDim {
        coefs,
        offset: 0,
        extent: 4,
        clamped: false,
    };
    Ok(Region {
        dims: vec![in alloc; dim]?,
    })
}

/// Whether two such boxes of a memref of 64 elements clash at a distance; none where there is more than one outer variable.
fn four_clash(
    alloc: Global,
    outside: &Domain,
    coef: i128,
    distance: i64,
) -> Result<Option<bool>, AllocError> {
    if outside.names.len() != 1 || outside.system.vars() < 1 {
        return Ok(None);
    }
    let (first, second) = (four_from(alloc, coef)?, four_from(alloc, coef)?);
    match clash(alloc, &first, &second, outside, &[64], 0, distance) {
        Ok(found) => Ok(Some(found)),
        Err(_) => Ok(None),
    }
}

#[test]
fn boxes_clash_at_a_distance(rt: HostRuntime) -> Result<(), Fail> {
    let alloc = rt.alloc();
    let module = verify(alloc, parse(alloc, TILED)?)?;
    let inner = Path {
        steps: Items::from_slice(alloc, &[(0, false), (0, false)])?,
    };
    if !names_loop(alloc, &module, &inner)? {
        panic!(rt; "no loop");
    }
    let Ok(outside) = domain_of(alloc, &module, &inner) else {
        panic!(rt; "no rows");
    };
    assert_eq!(rt; four_clash(alloc, &outside, 8, 1)?, Some(false));
    assert_eq!(rt; four_clash(alloc, &outside, 2, 1)?, Some(true));
    assert_eq!(rt; four_clash(alloc, &outside, 2, 2)?, Some(false));
    Ok(())
}

/// Whether the bounds of a loop are these two integers.
fn lie_at(bounds: &(Bound, Bound), lower: i64, upper: i64) -> bool {
    match bounds {
        (Bound::Int(from), Bound::Int(to)) => *from == lower && *to == upper,
        _ => false,
    }
}

#[test]
fn a_loop_of_four_turns_is_split_for_three_buffers(rt: HostRuntime) -> Result<(), Fail> {
    let parts = split(rt.alloc(), &Bound::Int(0), &Bound::Int(10), 3, 3)?;
    assert!(rt; lie_at(&parts.prologue, 0, 4));
    assert!(rt; lie_at(&parts.main, 0, 4));
    assert!(rt; lie_at(&parts.epilogue, 6, 10));
    Ok(())
}
