//! Modules of the affine profile: names, types, statements, arguments, images, and copies of them; and modules that are known to
//! be valid.
//!
//! A tree is plain data to a contract, with no capacity or pointer in it: a copy equals its source, lines included. What
//! the definitions of the layers above speak of is `specs/Nest`, a list of statements as one inductive type. The crate
//! stands on `affine_expr`, `int_ops` and `sqlite_items`.
#![tactic(auto)]

mod image;
mod module;
mod name;
mod plain;
mod stmt;
mod types;
mod verified;

pub use image::{Cells, Image, Path};
pub use module::{Arg, ArgKind, Module};
pub use name::{Name, Text};
pub use stmt::{Stmt, What};
pub use types::{Access, Bound, Element, MemrefType, Pick, Scalar};
pub use verified::Verified;
