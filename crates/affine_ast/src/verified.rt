// Modules that are known to be valid.
ghost use Rattle.std.specs.Prelude.{◌≡◌};
ghost use Rattle.affine_ast.specs.PlainLimits.{plain_fault};
ghost use Rattle.affine_ast.specs.Validity.{IsValid};

use crate::module::Module;
use crate::plain::list_fault;

/// A module that meets the rules V1 to V12 of validity.
#[derive(Drop)]
pub struct Verified {
    inner: Module,
    pub ghost valid: { IsValid inner },
}

impl Verified {
    /// The module, whose validity the caller has shown.
    pub fn seal(module: Module) -> Verified
        requires { IsValid «module» }
        ensures { result.inner ≡ «module» }
    {
        Verified { inner: module }
    }

    /// The valid module.
    pub fn module(&self) -> &Module
        ensures value { result.now ≡ self.now.inner }
        ensures valid { IsValid result.now }
    {
        &self.inner
    }

    /// The line of the first statement that breaks V13: the rule that a module to be staged or run directly has no
    /// allocation, dealloc, start or wait and keeps to the smaller limits. There is none exactly where the rule holds.
    #[tactic(auto, using(crate::proofs::PlainFaults::fault_is))]
    pub fn plain_fault(&self) -> Option<u32>
        ensures { result ≡ plain_fault self.now.inner }
    {
        let mut counted = 0;
        list_fault(self.inner.body.as_slice(), 0, &mut counted)
    }
}
