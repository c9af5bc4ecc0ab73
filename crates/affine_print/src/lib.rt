//! The printer: from a module to its one printed spelling.
//!
//! Each function appends one piece of the spelling, and says exactly which bytes. It stands on `affine_ast`, whose
//! `specs/Spelling` says what a module's spelling is.
#![tactic(auto)]

mod access;
mod expression;
mod module;
mod piece;
mod plain;
mod statement;
mod types;

pub use module::print;
