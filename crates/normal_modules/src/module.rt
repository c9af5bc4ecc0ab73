// A module with its subscripts numbered by first appearance.
ghost use Rattle.std.specs.Prelude.{◌≡◌, IfOk};
ghost use Rattle.normal_texts.specs.Texts.{IsNormal};

use crate::texts::normal_all;
use affine_ast::{Arg, Module};
use sqlite_items::Items;
use std::alloc::{AllocError, Global};

fn copied_args(alloc: Global, args: &[Arg]) -> Result<Items<Arg>, AllocError>
    ensures { IfOk result (λ copies. copies ≡ args.now) }
{
    let mut copies = Items::new(alloc);
    for arg in args {
        copies.push(arg.copy(alloc)?)?;
    }
    Ok(copies)
}

/// The module with the dimensions of its subscripts numbered by first appearance, in loads, stores and transfers. The function's name,
/// the arguments and all lines are the module's.
///
/// # Errors
///
/// `AllocError`, for want of memory, and where subscripts would have 2^32 dimensions or more.
pub fn normal_module(alloc: Global, module: &Module) -> Result<Module, AllocError>
    ensures name { IfOk result (λ made. made.name ≡ «module».now.name) }
    ensures normal { IfOk result (λ made. IsNormal «module».now made) }
{
    Ok(Module {
        name: module.name.copy(alloc)?,
        args: copied_args(alloc, module.args.as_slice())?,
        body: normal_all(alloc, module.body.as_slice())?,
    })
}
