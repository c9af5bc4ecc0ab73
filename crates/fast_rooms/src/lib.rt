//! Room for the fast memrefs of a text: their halves, their bytes, and numbers in the range of their elements.
//!
//! What an executor takes before a run that has halves lent to transfers, and how many bytes an allocation counts. The
//! lemmas (`proofs/Flights`) say of outstanding transfers that fit, that their places can be computed, and that there are
//! fewer than tags.
#![tactic(auto)]

mod halves;
mod numbers;

pub use halves::add_memrefs;
pub use numbers::{bytes_of, wrap};
