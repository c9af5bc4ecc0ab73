//! The printed text of a module spells that module.
//!
//! Each module that may be written, by a predicate on the module alone, is spelled by its printed text, up to the lines of
//! statements and arguments; and where a text spells a module, that module may be written, but for a negated 0 under the nesting
//! limit. There is no code to run here. The proof of the first goes along the module, that of the second along the derivation of
//! the text.
//!
//! The crate stands on `affine_grammar`, `affine_lex` and `affine_ast`.
#![tactic(auto)]

mod law;

pub use law::{printed_texts_spell, written_texts_spell};
