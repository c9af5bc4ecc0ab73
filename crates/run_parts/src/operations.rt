// Operations and casts at the widths of types.
ghost use Rattle.std.specs.Prelude.{◌≡◌};
ghost use Rattle.affine_ast.specs.Sizes.{scalar_bits};
ghost use Rattle.int_ops.specs.Operation.{operation};
ghost use Rattle.int_ops.specs.Wrapped.{IsWidth, InRange};

use affine_ast::{Element, Scalar};
use int_ops::{Op, Width};

/// The bits of a type.
pub(crate) fn bits(ty: Scalar) -> u32
    ensures bits { result ≡ scalar_bits ty }
    ensures width { IsWidth result }
{
    match ty {
        Scalar::Int(Element::I8) => 8,
        Scalar::Int(Element::I16) => 16,
        Scalar::Int(Element::I32) => 32,
        Scalar::Int(Element::I64) => 64,
        Scalar::Index => 64,
    }
}

/// An operation at the width of a type; none at the fault of a division.
pub(crate) fn apply(op: Op, ty: Scalar, left: i64, right: i64) -> Option<i64>
    requires left { InRange (scalar_bits ty) left }
    requires right { InRange (scalar_bits ty) right }
    ensures { result ≡ operation op (scalar_bits ty) left right }
{
    match ty {
        Scalar::Int(Element::I8) => at_width::<8>(op, left, right),
        Scalar::Int(Element::I16) => at_width::<16>(op, left, right),
        Scalar::Int(Element::I32) => at_width::<32>(op, left, right),
        Scalar::Int(Element::I64) => at_width::<64>(op, left, right),
        Scalar::Index => at_width::<64>(op, left, right),
    }
}

fn at_width<const N: u32>(op: Op, left: i64, right: i64) -> Option<i64>
    requires width { IsWidth N }
    requires left { InRange N left }
    requires right { InRange N right }
    ensures { result ≡ operation op N left right }
{
    match Width::<N>::apply(op, left, right) {
        Ok(value) => Some(value),
        Err(_) => None,
    }
}
