//! Parser combinators with exact places, as definitions and laws. There is no code to run here: a crate
//! with a parser writes its grammar as a language, and cites a reader of the same shape in the contracts
//! of its functions.
//!
//! A *language* is a relation between lists of tokens and values, and a *reader* is a function from a
//! list of tokens to a value and the tokens left, or to the tokens from the refused one on. Both are put
//! together by the same shapes: one token, one part after the other, a choice by the next token, items
//! one after the other, and what is made of these. The type of the tokens is open.
//!
//! `Exact` says that a reader reads a language: what it gives is spelled, what is spelled it gives, and
//! it refuses a token only behind a viable prefix. It is proved once for each shape (`proofs/Laws.antt`),
//! so that a production costs a term of its own shape. For a whole text it gives the place of a refusal:
//! the first token that can't stand where it stands (`proofs/Whole.antt`).
//!
//! The crate stands on std alone.
#![tactic(auto)]

mod grammar;
mod shapes;

pub use grammar::{Grammar, whole_texts_are_exact};
pub use shapes::{
    Alternative, Repetition, Sequence, alternatives_are_exact, repetitions_are_exact,
    sequences_are_exact,
};
