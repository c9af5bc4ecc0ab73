// A whole module.
ghost use Rattle.std.specs.Prelude.{◌≡◌, OnOk, IfOk, IfErr};
ghost use Rattle.affine_ast.specs.Validity.{first_broken, IsValid};
ghost use Rattle.affine_verify.specs.Comes.{Answers, IsTold};

use crate::arguments::arguments;
use crate::fault::VerifyFault;
use crate::walk::list;
use affine_ast::{Module, Verified};
use affine_rules::Scoped;
use name_hash::NameHashing;
use std::alloc::Global;

/// The arguments, and then the statements.
fn walked(alloc: Global, input: &Module) -> Result<(), VerifyFault>
    ensures { Answers result (first_broken input.now) }
{
    let mut scoped = Scoped::new(alloc, NameHashing::of_module(input));
    let argued = arguments(alloc, input.args.as_slice(), &mut scoped);
    if argued.is_err() {
        return argued;
    }
    list(alloc, input.body.as_slice(), &mut scoped)
}

/// The module, sealed, where it meets the rules V1 to V12 of validity.
///
/// `Invalid` comes exactly where one is broken, with the line of the first argument or statement in text order that breaks one and
/// with the lowest that it breaks. The module is dropped on a refusal. Lines count from 1.
pub fn verify(alloc: Global, module: Module) -> Result<Verified, VerifyFault>
    ensures same { IfOk result (λ verified. verified.inner ≡ «module») }
    ensures valid { OnOk result (IsValid «module») }
    ensures broken { IfErr result (λ fault. IsTold fault (first_broken «module»)) }
{
    match walked(alloc, &module) {
        Ok(()) => Ok(Verified::seal(module)),
        Err(fault) => Err(fault),
    }
}
