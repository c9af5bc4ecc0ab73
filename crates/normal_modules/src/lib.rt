//! A module with its subscripts as the grammar reads them, in code: the last step but one of a staged text.
//!
//! `normal_texts`, `specs/Texts`, says which module that is.
#![tactic(auto)]

mod module;
mod texts;

pub use module::normal_module;
