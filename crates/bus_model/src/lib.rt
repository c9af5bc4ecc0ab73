//! Transfers between slow and fast memory, the steps of a run, and its verdicts, as plain values.
//!
//! `Transfer::slow`, `meets` and `BusState::legal` are exact. The definitions say what each step of an engine does, and how
//! a memory whose transfers are under way agrees with one in which each was copied at its start (`Ledger`). Its lemmas
//! (`proofs/Ledgers`, `proofs/Copies`) serve the words that threads share and the machine of all orders alike. The crate
//! stands on std alone and takes no memory.
#![tactic(auto)]

ghost use Rattle.bus_model.specs.Places.{PlacesAreDistinct};
ghost use Rattle.bus_model.specs.Engines.{EnginesKeepAgreement};

mod step;
mod transfer;

pub use step::{FaultKind, Step, Verdict};
pub use transfer::{BusState, Started, Transfer, meets};

/// Where a stride is at least the chunk and the chunk at least 1, the elements of a transfer have places of their own.
pub fn places_are_distinct()
    ensures { PlacesAreDistinct }
{}

/// Whatever the engines do, and in whatever order, the memory agrees with the prompt one.
pub fn engines_keep_agreement()
    ensures { EnginesKeepAgreement }
{}
