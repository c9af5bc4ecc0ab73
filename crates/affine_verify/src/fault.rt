// Why a module isn't verified.
ghost use Rattle.std.specs.Prelude.{◌≡◌, Some, None};
ghost use Rattle.affine_verify.specs.Comes.{judgement};

use std::alloc::{AllocError, AllocFailed};
use thiserror::Error;

/// Why a module isn't verified.
#[derive(Debug, Drop, Error)]
pub enum VerifyFault {
    /// The first argument or statement in text order that breaks a rule, by its line counted from 1, and the lowest rule that it
    /// breaks.
    #[error("invalid line {line} rule V{rule}")]
    Invalid { line: u32, rule: u8 },
    /// Memory was wanting.
    #[error("out of memory")]
    Memory,
}

impl From<AllocError> for VerifyFault {
    ghost use Rattle.affine_verify.specs.declared.fault.VerifyFault.TheVariants.{Memory};

    ghost from_gives = { λ _ fault. fault ≡ Memory };

    fn from(_error: AllocError) -> VerifyFault {
        VerifyFault::Memory
    }
}

impl<T: Drop> From<AllocFailed<T>> for VerifyFault {
    ghost use Rattle.affine_verify.specs.declared.fault.VerifyFault.TheVariants.{Memory};

    ghost from_gives = { λ _ fault. fault ≡ Memory };

    fn from(_error: AllocFailed<T>) -> VerifyFault {
        VerifyFault::Memory
    }
}

/// Whether an argument or a statement stands that breaks this rule, or none.
pub(crate) fn judged(line: u32, rule: Option<u8>) -> Result<(), VerifyFault>
    ensures { result ≡ judgement line rule }
{
    match rule {
        None => Ok(()),
        Some(rule) => Err(VerifyFault::Invalid { line, rule }),
    }
}
