// The bytes of a box.
ghost use Rattle.std.specs.Prelude.{◌≡◌, ◌*◌, ◌-◌, ◌^◌, ◌<◌, min};
ghost use Rattle.std.specs.Option.{option_copied};
ghost use Rattle.affine_ast.specs.Sizes.{product};
ghost use Rattle.direct_meaning.specs.Static.{element_bytes};
ghost use Rattle.plan_report.specs.Report.{extents, element_bytes_of, half_bytes};

use affine_ast::{Arg, ArgKind, Element};
use nest_domain::{Region, RegionDim};

fn element_bytes(element: Element) -> u64
    ensures { result ≡ element_bytes element }
{
    match element {
        Element::I8 => 1,
        Element::I16 => 2,
        Element::I32 => 4,
        Element::I64 => 8,
    }
}

/// The bytes of an element of a memref argument.
fn bytes_of(arg: Option<&Arg>) -> u64
    ensures { result ≡ element_bytes_of (option_copied arg.entry) }
{
    match arg {
        Some(arg) => match &arg.kind {
            ArgKind::Memref(ty) => element_bytes(ty.element),
            ArgKind::Index(_) => 0,
        },
        None => 0,
    }
}

/// The elements of a box, and the greatest number where they are more.
fn elements(dims: &[RegionDim]) -> u64
    ensures { result ≡ min (product (extents dims.now)) (2 ^ 64 - 1) }
{
    let mut count: u64 = 1;
    for dim in dims {
        count = count.saturating_mul(dim.extent as u64);
    }
    count
}

/// The bytes of one half.
pub(crate) fn half_bytes(arg: Option<&Arg>, region: &Region) -> u64
    requires { half_bytes (option_copied arg) region.now < 2 ^ 64 }
    ensures { result ≡ half_bytes (option_copied arg.entry) region.now }
{
    elements(&region.dims).saturating_mul(bytes_of(arg))
}
