// Regions of memrefs at the loops that paths name, and whether they are covered.
ghost use Rattle.std.specs.Prelude.{◌≡◌, ◌<◌, true, length, IfOk};
ghost use Rattle.affine_ast.specs.Nest.{nest};
ghost use Rattle.nest_domain.specs.Ways.{at_path};
ghost use Rattle.nest_domain.specs.Accessing.{NamesLoop};

use access_region::{covers, region_of};
use affine_ast::{Path, Verified, What};
use affine_text::parse;
use affine_verify::verify;
use nest_domain::{Region, way_to};
use sqlite_items::Items;
use std::alloc::{AllocError, Global};
use std::test::Fail;

/// Whether a path names a loop.
pub(crate) fn names_loop(alloc: Global, module: &Verified, at: &Path) -> Result<bool, AllocError>
    ensures { IfOk result (λ named. named ≡ true → NamesLoop (at_path (nest «module».now.inner.body) at.now.steps)) }
{
    let module = module.module();
    let Some(found) = way_to(alloc, module.body.as_slice(), at)? else {
        return Ok(false);
    };
    let Some(first) = found.here.first() else {
        return Ok(false);
    };
    match &first.what {
        What::For { .. } => Ok(true),
        _ => Ok(false),
    }
}

fn has_arguments(module: &Verified) -> bool
    ensures { result ≡ true → 0 < length «module».now.inner.args }
{
    module.module().args.len() > 0
}

/// The region of the first argument at the loop that a path names, and whether it is covered; none where there is no such loop or region.
fn region_at(
    alloc: Global,
    module: &Verified,
    at: &Path,
) -> Result<Option<(Region, bool)>, AllocError> {
    if !names_loop(alloc, module, at)? {
        return Ok(None);
    }
    if !has_arguments(module) {
        return Ok(None);
    }
    let Ok(region) = region_of(alloc, module, at, 0, true) else {
        return Ok(None);
    };
    let covered = covers(alloc, module, at, 0, &region)?;
    Ok(Some((region, covered)))
}

/// Eight numbers are stored in each turn of a loop.
const SWEPT: &[u8] =
    b"func.func @f(%A: memref<8xi32>) {\n  affine.for %i = 0 to 4 {\n    affine.for %j = 0 to 8 {\n      %0 = arith.constant 5 : i32\n      affine.store %0, %A[%j] : memref<8xi32>\n    }\n  }\n  return\n}\n";

/// The same under a condition.
const GUARDED: &[u8] =
    b"func.func @f(%A: memref<8xi32>) {\n  affine.for %i = 0 to 4 {\n    affine.for %j = 0 to 8 {\n      affine.if affine_set<(d0) : (d0 - 1 >= 0)>(%j) {\n        %0 = arith.constant 5 : i32\n        affine.store %0, %A[%j] : memref<8xi32>\n      }\n    }\n  }\n  return\n}\n";

#[test]
fn regions_are_found_and_covered(rt: HostRuntime) -> Result<(), Fail> {
    let alloc = rt.alloc();
    let at = Path {
        steps: Items::from_slice(alloc, &[(0, false), (0, false)])?,
    };
    for (text, extent, swept) in [(SWEPT, 8, true), (GUARDED, 7, false)] {
        let module = verify(alloc, parse(alloc, text)?)?;
        let Some((region, covered)) = region_at(alloc, &module, &at)? else {
            panic!(rt; "no region");
        };
        assert_eq!(rt; region.dims.len(), 1);
        for dim in &region.dims {
            assert_eq!(rt; dim.extent, extent);
        }
        assert_eq!(rt; covered, swept);
    }
    Ok(())
}
