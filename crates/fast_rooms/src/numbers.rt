// The bytes of a fast memref, and the filler of its cells.
ghost use Rattle.std.specs.Prelude.{◌≡◌, ◌≤◌, ◌^◌};
ghost use Rattle.affine_ast.specs.Sizes.{element_bits, product};
ghost use Rattle.int_ops.specs.Wrapped.{IsWidth, wrapped};
ghost use Rattle.direct_meaning.specs.Static.{element_bytes};
ghost use Rattle.prompt_semantics.specs.Device.{bytes_of};
ghost use Rattle.prompt_laws.specs.Reaches.{SizesFit};

use affine_ast::Element;
use int_ops::{CastKind, cast};

fn bits(element: Element) -> u32
    ensures bits { result ≡ element_bits element }
    ensures width { IsWidth result }
{
    match element {
        Element::I8 => 8,
        Element::I16 => 16,
        Element::I32 => 32,
        Element::I64 => 64,
    }
}

fn bytes(element: Element) -> u64
    ensures bytes { result ≡ element_bytes element }
    ensures few { result ≤ 8 }
{
    match element {
        Element::I8 => 1,
        Element::I16 => 2,
        Element::I32 => 4,
        Element::I64 => 8,
    }
}

/// How many elements there are.
fn count(sizes: &[u32]) -> u64
    requires { SizesFit sizes.now }
    ensures { result ≡ product sizes.now }
{
    let mut count = 1u64;
    for size in sizes {
        count *= *size as u64;
    }
    count
}

/// The bytes of a fast memref.
pub fn bytes_of(element: Element, sizes: &[u32]) -> u64
    requires { SizesFit sizes.now }
    ensures bytes { result ≡ bytes_of element sizes.now }
    ensures few { result ≤ 2 ^ 27 }
{
    count(sizes) * bytes(element)
}

/// A number taken into the signed range of an element.
pub fn wrap(filler: i64, element: Element) -> i64
    ensures { result ≡ wrapped (element_bits element) filler }
{
    cast(CastKind::Index, 64, bits(element), filler)
}
