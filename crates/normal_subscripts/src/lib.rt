//! Subscripts whose dimensions are numbered by first appearance, in code.
//!
//! `placement_texts`, `specs/Normal`, says which they are: those that the grammar reads where a text is printed.
#![tactic(auto)]

mod access;
mod numbered;
mod order;

pub use access::normal;
