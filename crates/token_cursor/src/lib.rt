//! A cursor over the tokens of a text, with a reader for each token of the grammar.
//!
//! Each reader's clause is the taker of `affine_grammar` for that token, so a parser over them reads the grammar exactly. Where
//! a token can't stand, it stays. The crate stands on `affine_lex`, `affine_grammar` and `affine_ast`.
#![tactic(auto)]

mod cursor;
mod kinds;
mod leaves;
mod lists;
mod names;
mod refusal;
mod words;

pub use cursor::Tokens;
pub use leaves::numbered;
pub use lists::fitted;
pub use refusal::Refusal;
