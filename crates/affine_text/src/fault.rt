// Why no module was read.
ghost use Rattle.std.specs.Prelude.{◌≡◌};

use std::alloc::AllocError;
use thiserror::Error;

/// Why no module was read.
#[derive(Clone, Copy, Debug, Error)]
pub enum ParseFault {
    /// The place of the first token that no module can have there, counted from 1, the column in bytes.
    #[error("text {line}:{column}")]
    Text { line: u32, column: u32 },
    #[error("out of memory")]
    Memory,
}

impl From<AllocError> for ParseFault {
    ghost use Rattle.affine_text.specs.declared.fault.ParseFault.TheVariants.{Memory};

    ghost from_gives = { λ _ fault. fault ≡ Memory };

    fn from(_error: AllocError) -> ParseFault {
        ParseFault::Memory
    }
}
