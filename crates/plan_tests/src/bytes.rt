// The bytes that a box takes.
ghost use Rattle.std.specs.Prelude.{◌≡◌, ◌<◌, ◌^◌};
ghost use Rattle.affine_ast.specs.Sizes.{product};
ghost use Rattle.direct_meaning.specs.Static.{element_bytes};
ghost use Rattle.peak_laws.specs.Peak.{fast_bytes};
ghost use Rattle.placement_code.specs.Placed.{placement_of};
ghost use Rattle.placement_texts.specs.Template.{dim_extents, fast_type};

use affine_ast::Element;
use placement_code::{Dimension, Placement};

/// The bytes of an element.
pub fn element_bytes(element: Element) -> u64
    ensures { result ≡ element_bytes element }
{
    match element {
        Element::I8 => 1,
        Element::I16 => 2,
        Element::I32 => 4,
        Element::I64 => 8,
    }
}

/// The elements of a box.
fn box_elements(dims: &[Dimension]) -> u64
    requires { product (dim_extents dims.now) < 2 ^ 32 }
    ensures { result ≡ product (dim_extents dims.now) }
{
    let mut count: u64 = 1;
    for dim in dims {
        count = count.saturating_mul(dim.extent as u64);
    }
    count
}

/// The bytes of a placement's box in fast memory.
pub(crate) fn box_bytes(placed: &Placement) -> u64
    requires { product (dim_extents placed.now.dims) < 2 ^ 32 }
    ensures { result ≡ fast_bytes (fast_type (placement_of placed.now)) }
{
    box_elements(placed.dims.as_slice()) * element_bytes(placed.element)
}
