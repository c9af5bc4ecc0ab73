//! Laws of the transfers of a valid module, from its text alone: each started tag is one of the text's, and each count is
//! whole chunks.
//!
//! The runner over a bus cites them: a bus has as many tags as the text, and moves whole chunks. The crate stands on the laws
//! of valid modules.
#![tactic(auto)]

ghost use Rattle.transfer_laws.specs.Law.{ValidTransfersFit};

/// From every memory that fits a valid module: each transfer that an action starts has a tag of the text's allocations, and
/// its count is a multiple of its chunk.
pub fn valid_transfers_fit()
    ensures { ValidTransfersFit }
{}
