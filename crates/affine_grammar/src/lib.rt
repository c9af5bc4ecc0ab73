//! The grammar of a whole text: which lists of tokens spell which module.
//!
//! `specs/Grammar` and `specs/GrammarFile` are the grammar, a relation between the tokens of a text and
//! a module with its lines. `specs/Reading` and `specs/ReadingFile` say the same of a parser, production
//! by production, for the contracts of its functions. That parser is exact: it gives the module that a
//! text spells, a text spells at most one, and all else is refused at the first token that can't stand
//! where it stands.
//!
//! The crate stands on `readers`, `affine_lex`, `affine_ast` and `name_table`.
#![tactic(auto)]

mod text;
mod words;

pub use text::texts_are_read_exactly;
pub use words::{Action, Alias, Aliases, Body, Definition, Leaves, Operator, Scope, State, Turns};
