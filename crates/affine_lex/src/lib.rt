//! The lexer of the texts of `affine`: a text, of any bytes, becomes the list of its tokens.
//!
//! Each token is the longest that begins at its place, and what lies between two tokens is white
//! space and comments. `specs/Tokens.antt` says so as a relation between texts and lists of tokens;
//! each text has one such list. `tokens` gives it, and a `Scanner` gives its tokens one by one, with
//! no list of them in memory. What the tokens mean together is the grammar's matter. The crate
//! stands on std alone.
#![tactic(auto)]

mod class;
mod lexeme;
mod lexer;
mod scanner;
mod token;

pub use scanner::{Scanner, text_end, tokens};
pub use token::{Kind, Token};
