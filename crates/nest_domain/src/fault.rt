//! Why there are no rows.

use affine_expr::LinearFault;
use std::alloc::{AllocError, AllocFailed};
use thiserror::Error;

/// Why a place has no rows.
#[derive(Clone, Copy, Debug, Error)]
pub enum DomainFault {
    /// A coefficient or constant of a form leaves 128 bits.
    #[error("a coefficient leaves 128 bits")]
    Wide,
    /// There are more than 64 variables.
    #[error("there are more than 64 variables")]
    Rows,
    #[error("out of memory")]
    Memory,
}

impl From<AllocError> for DomainFault {
    ghost use Rattle.std.specs.Prelude.{◌≡◌};
    ghost use Rattle.nest_domain.specs.declared.fault.DomainFault.{DomainFault};

    ghost from_gives = { λ _ r. r ≡ DomainFault.Memory };

    fn from(_error: AllocError) -> DomainFault {
        DomainFault::Memory
    }
}

impl<T: Drop> From<AllocFailed<T>> for DomainFault {
    ghost use Rattle.std.specs.Prelude.{◌≡◌};
    ghost use Rattle.nest_domain.specs.declared.fault.DomainFault.{DomainFault};

    ghost from_gives = { λ _ r. r ≡ DomainFault.Memory };

    fn from(_error: AllocFailed<T>) -> DomainFault {
        DomainFault::Memory
    }
}

impl From<LinearFault> for DomainFault {
    ghost use Rattle.std.specs.Prelude.{◌≡◌};
    ghost use Rattle.nest_domain.specs.declared.fault.DomainFault.{DomainFault};
    ghost use Rattle.nest_domain.specs.Accessing.{of_form};

    ghost from_gives = { λ e r. r ≡ of_form e };

    fn from(fault: LinearFault) -> DomainFault {
        match fault {
            LinearFault::Wide => DomainFault::Wide,
            LinearFault::Memory => DomainFault::Memory,
        }
    }
}
