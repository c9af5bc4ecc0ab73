//! Names that are found by their bytes, however many there are.
//!
//! A `NameTable` gives each name its number, the first that was given to it. `Names` is a list of names
//! that tells at which place a text stands first. Both answer as a search through the list from its
//! beginning would, and take a time that does not grow with the list, whatever the names are: they are hashed as
//! `name_hash` has it. The crate stands on `affine_ast` for names and on `indexmap` for tables by hash.
#![tactic(auto)]

mod named;
mod table;

pub use named::{Named, NamedItems, Names};
pub use table::NameTable;
