//! The parser's functions for types, expressions, maps, sets and their uses, and subscripts.
//!
//! Each function reads one production: its clause is the reader of that production in `affine_grammar`. The crate stands on
//! `token_cursor`.
#![tactic(auto)]

mod expressions;
mod maps;
mod types;

pub use maps::{brackets, map0, operands, set0, some_set, subscripts, use_of};
pub use types::{memref, signed};
