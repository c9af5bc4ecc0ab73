//! The parser: from the bytes of a text to the one module that they spell.
//!
//! `parse` is exact: it gives a module exactly where the bytes spell it by the grammar of `affine_grammar`, and refuses all
//! other bytes at the first token that no module can have there. There is one function for each production, and its clause
//! is the reader of that production. The crate stands on `expression_text` and `token_cursor`.
#![tactic(auto)]

mod actions;
mod definitions;
mod fault;
mod function;
mod regions;
mod text;

pub use fault::ParseFault;
pub use text::parse;
