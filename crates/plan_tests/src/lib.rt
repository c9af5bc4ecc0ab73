//! The tests of a placement, kept from one decision of a plan to the next: nothing builds or walks the text of the placements again.
//!
//! The tests are those of `plan_laws`, `specs/Plan`: `fitted`. The sums of the text are those of `text_limits`, its live bytes those of
//! `staged_peaks`.
#![tactic(auto)]

mod bytes;
mod tests;

pub use bytes::element_bytes;
pub use tests::Tests;
