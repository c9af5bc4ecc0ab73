//! The names that templates made get the numbers of a printed text, in code.
//!
//! What a module with numbered names is, and that it is valid and runs as the module, stands in `numbered_names`. The names that a
//! module defines are listed once; the module is then copied with each made name replaced.
#![tactic(auto)]

ghost use Rattle.std.specs.Prelude.{IfOk};
ghost use Rattle.numbered_names.specs.Numbers.{IsNumbered};

mod numbering;
mod prefix;
mod renamed;
mod value_names;

use affine_ast::Verified;
use numbering::Numbering;
use renamed::renamed_module;
use std::alloc::{AllocError, Global};

/// The module, in which each made name has its number: `copyN` for the one that is defined behind N others, with as many
/// underscores behind `copy` as keep it from all names of the text.
///
/// # Errors
///
/// `AllocError`, for want of memory alone.
#[tactic(auto, using(crate::proofs::Numbered::is_numbered, crate::proofs::Numbered::stays_valid))]
pub fn number_names(alloc: Global, module: &Verified) -> Result<Verified, AllocError>
    ensures { IfOk result (λ numbered. IsNumbered «module».now.inner numbered.inner) }
{
    let numbering = Numbering::of(alloc, module.module())?;
    let numbered = renamed_module(alloc, &numbering, module.module())?;
    Ok(Verified::seal(numbered))
}
