//! Large valid inputs, each made from a number: a product of two matrices in tiles, and its memory.
//!
//! The crate stands on the tree, and on the rules of validity as definitions: that a module which it makes is valid is
//! proved once, for each of its six sizes, and nothing is verified at run time.
#![tactic(auto)]

ghost use Rattle.std.specs.Prelude.{◌≡◌, None, IfOk};
ghost use Rattle.affine_ast.specs.PlainLimits.{plain_fault};
ghost use Rattle.direct_meaning.specs.Memory.{Fits};
ghost use Rattle.case_gen.specs.Sample.{memory, product, size_of};

mod memory;
mod module;

use affine_ast::{Image, Verified};
use memory::image_of;
use module::module_of;
use std::alloc::{AllocError, Global};

/// The input of a number: a module that meets V1 to V13, and a memory that fits it.
///
/// # Errors
///
/// `AllocError`, for want of memory alone.
pub fn sample(alloc: Global, number: u64) -> Result<(Verified, Image), AllocError>
    ensures module_is { IfOk result (λ made. made.0.inner ≡ product (size_of number)) }
    ensures memory_is { IfOk result (λ made. made.1 ≡ memory number (size_of number)) }
    ensures plain { IfOk result (λ made. plain_fault made.0.inner ≡ None) }
    ensures fits { IfOk result (λ made. Fits made.0.inner made.1) }
{
    let size = 24 + 8 * (number % 6) as u32;
    let module = module_of(alloc, size)?;
    let verified = Verified::seal(module);
    let image = image_of(alloc, number, size)?;
    Ok((verified, image))
}
