//! Why there are no lines.

use std::alloc::AllocError;
use thiserror::Error;

/// Why a module has no region lines.
#[derive(Clone, Copy, Debug, Error)]
pub enum LinesFault {
    /// The statement at this line breaks V13.
    #[error("the statement at line {line} breaks V13")]
    Plain { line: u32 },
    #[error("out of memory")]
    Memory,
}

impl From<AllocError> for LinesFault {
    ghost use Rattle.std.specs.Prelude.{◌≡◌};
    ghost use Rattle.module_regions.specs.declared.fault.LinesFault.{LinesFault};

    ghost from_gives = { λ _ r. r ≡ LinesFault.Memory };

    fn from(_error: AllocError) -> LinesFault {
        LinesFault::Memory
    }
}
