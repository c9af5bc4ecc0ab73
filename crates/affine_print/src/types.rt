// Types.
ghost use Rattle.std.specs.Prelude.{◌≡◌, ◌++◌, OnOk};
ghost use Rattle.std.specs.List.{flat_map};
ghost use Rattle.affine_ast.specs.Spelling.{element_text, scalar_text, scalar_typed_text, size_text, space_text, memref_text, typed_text};

use crate::piece::{put, put_unsigned};
use affine_ast::{Element, MemrefType, Scalar};
use std::alloc::{AllocError, Global};

fn element_word(element: Element) -> &'static [u8]
    ensures { result.now ≡ element_text element }
{
    match element {
        Element::I8 => b"i8",
        Element::I16 => b"i16",
        Element::I32 => b"i32",
        Element::I64 => b"i64",
    }
}

pub fn put_scalar(out: &mut Vec<u8>, ty: Scalar) -> Result<(), AllocError>
    ensures { OnOk result (out.new.items ≡ out.old.items ++ scalar_text ty) }
{
    match ty {
        Scalar::Int(element) => put(out, element_word(element)),
        Scalar::Index => put(out, b"index"),
    }
}

/// ` : ` and the type of a value.
#[tactic(auto, unfolding(affine_ast::specs::Spelling::scalar_typed_text))]
pub fn put_scalar_typed(out: &mut Vec<u8>, ty: Scalar) -> Result<(), AllocError>
    ensures { OnOk result (out.new.items ≡ out.old.items ++ scalar_typed_text ty) }
{
    put(out, b" : ")?;
    put_scalar(out, ty)
}

#[tactic(auto, unfolding(affine_ast::specs::Spelling::size_text))]
fn put_size(alloc: Global, out: &mut Vec<u8>, size: u32) -> Result<(), AllocError>
    ensures { OnOk result (out.new.items ≡ out.old.items ++ size_text size) }
{
    put_unsigned(alloc, out, size)?;
    put(out, b"x")
}

fn put_sizes(alloc: Global, out: &mut Vec<u8>, sizes: &[u32]) -> Result<(), AllocError>
    ensures { OnOk result (out.new.items ≡ out.old.items ++ flat_map size_text sizes.now) }
{
    for size in sizes {
        put_size(alloc, out, *size)?;
    }
    Ok(())
}

/// The space, where it isn't 0.
#[tactic(auto, unfolding(affine_ast::specs::Spelling::space_text))]
fn put_space(alloc: Global, out: &mut Vec<u8>, space: u8) -> Result<(), AllocError>
    ensures { OnOk result (out.new.items ≡ out.old.items ++ space_text space) }
{
    if space == 0 {
        return Ok(());
    }
    put(out, b", ")?;
    put_unsigned(alloc, out, space as u32)
}

/// A memref type.
#[tactic(auto, unfolding(affine_ast::specs::Spelling::memref_text))]
pub fn put_memref(alloc: Global, out: &mut Vec<u8>, ty: &MemrefType) -> Result<(), AllocError>
    ensures { OnOk result (out.new.items ≡ out.old.items ++ memref_text ty.now) }
{
    put(out, b"memref<")?;
    put_sizes(alloc, out, ty.sizes.as_slice())?;
    put(out, element_word(ty.element))?;
    put_space(alloc, out, ty.space)?;
    put(out, b">")
}

/// ` : ` and a memref type.
#[tactic(auto, unfolding(affine_ast::specs::Spelling::typed_text))]
pub fn put_typed(alloc: Global, out: &mut Vec<u8>, ty: &MemrefType) -> Result<(), AllocError>
    ensures { OnOk result (out.new.items ≡ out.old.items ++ typed_text ty.now) }
{
    put(out, b" : ")?;
    put_memref(alloc, out, ty)
}
