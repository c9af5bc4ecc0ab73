//! What a module with transfers does where each transfer completes at its start.
//!
//! The prompt meaning is a fold over the list of a module's actions: over the slow list, the halves of fast memory, the
//! live bytes and the records of the outstanding transfers. The crate stands on `direct_meaning`.
#![tactic(auto)]
