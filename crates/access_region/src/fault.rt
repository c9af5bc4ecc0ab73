//! Why there is no region.

use affine_expr::LinearFault;
use projection::ReachFault;
use std::alloc::{AllocError, AllocFailed};
use thiserror::Error;

/// Why a memref has no region at a loop.
#[derive(Clone, Copy, Debug, Error)]
pub enum RegionFault {
    /// An access isn't `affine.load` or `affine.store`, or none is ever reached.
    #[error("no region holds the accesses")]
    Region,
    /// A form, a number of an elimination or an expression of the templates leaves its limits.
    #[error("a coefficient leaves its limits")]
    Coefficient,
    /// An elimination has too many variables or rows.
    #[error("an elimination has too many variables or rows")]
    Rows,
    #[error("out of memory")]
    Memory,
}

impl From<AllocError> for RegionFault {
    ghost use Rattle.std.specs.Prelude.{◌≡◌};
    ghost use Rattle.access_region.specs.declared.fault.RegionFault.{RegionFault};

    ghost from_gives = { λ _ r. r ≡ RegionFault.Memory };

    fn from(_error: AllocError) -> RegionFault {
        RegionFault::Memory
    }
}

impl<T: Drop> From<AllocFailed<T>> for RegionFault {
    ghost use Rattle.std.specs.Prelude.{◌≡◌};
    ghost use Rattle.access_region.specs.declared.fault.RegionFault.{RegionFault};

    ghost from_gives = { λ _ r. r ≡ RegionFault.Memory };

    fn from(_error: AllocFailed<T>) -> RegionFault {
        RegionFault::Memory
    }
}

impl From<LinearFault> for RegionFault {
    ghost use Rattle.std.specs.Prelude.{◌≡◌};
    ghost use Rattle.access_region.specs.declared.fault.RegionFault.{RegionFault};
    ghost use Rattle.access_region.specs.Converted.{of_form};

    ghost from_gives = { λ e r. r ≡ of_form e };

    fn from(fault: LinearFault) -> RegionFault {
        match fault {
            LinearFault::Wide => RegionFault::Coefficient,
            LinearFault::Memory => RegionFault::Memory,
        }
    }
}

impl From<ReachFault> for RegionFault {
    ghost use Rattle.std.specs.Prelude.{◌≡◌};
    ghost use Rattle.access_region.specs.declared.fault.RegionFault.{RegionFault};
    ghost use Rattle.access_region.specs.Converted.{of_elimination};

    ghost from_gives = { λ e r. r ≡ of_elimination e };

    fn from(fault: ReachFault) -> RegionFault {
        match fault {
            ReachFault::Wide => RegionFault::Coefficient,
            ReachFault::Rows => RegionFault::Rows,
            ReachFault::Memory => RegionFault::Memory,
        }
    }
}
