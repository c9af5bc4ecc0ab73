//! Why there is no answer.

use std::alloc::{AllocError, AllocFailed};
use thiserror::Error;

/// Why an elimination, a reach or an emptiness has no answer.
#[derive(Clone, Copy, Debug, Error)]
pub enum ReachFault {
    /// A factor, a product or a sum of a step isn't in 128 bits.
    #[error("a number of an elimination leaves 128 bits")]
    Wide,
    /// There are more than 64 variables, or more than 2,048 rows in a step before any is dropped.
    #[error("an elimination has too many variables or rows")]
    Rows,
    #[error("out of memory")]
    Memory,
}

impl From<AllocError> for ReachFault {
    ghost use Rattle.std.specs.Prelude.{◌≡◌};
    ghost use Rattle.projection.specs.declared.fault.ReachFault.{ReachFault};

    ghost from_gives = { λ _ r. r ≡ ReachFault.Memory };

    fn from(_error: AllocError) -> ReachFault {
        ReachFault::Memory
    }
}

impl<T: Drop> From<AllocFailed<T>> for ReachFault {
    ghost use Rattle.std.specs.Prelude.{◌≡◌};
    ghost use Rattle.projection.specs.declared.fault.ReachFault.{ReachFault};

    ghost from_gives = { λ _ r. r ≡ ReachFault.Memory };

    fn from(_error: AllocFailed<T>) -> ReachFault {
        ReachFault::Memory
    }
}
