//! A text with a line for each statement, in code: the text that the placements of a plan are staged in.
//!
//! `plan_laws`, `specs/Sites`, says which text that is.
#![tactic(auto)]

mod texts;

pub use texts::lined_text;
