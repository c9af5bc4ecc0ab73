//! A module made ready to be walked: the same tree, with a number in place of each name.
//!
//! `make` gives a module's `Program`. Names have numbers in the order of their first use, so what a name stands for can
//! be kept in a table and is found without a look at the name's text. What a program means is what it stands for: read
//! with its table of names its arguments and body are its module's again, lines included (`specs/Reading`). Beside that
//! it says of each region how many allocations stand in it, and how long the longest list of operands is, so a walk can
//! take all its room at once. The crate stands on `affine_ast`, `affine_expr`, `int_ops`, `direct_meaning` (for the
//! counts of allocations), `sqlite_items` and `indexmap`.
#![tactic(auto)]

mod counts;
mod making;
mod numbering;
mod plain;
mod plains;
mod program;
mod regions;
mod statement;

pub use making::make;
pub use plain::{Limit, Plain, Subscripts};
pub use program::{Argument, Program};
pub use statement::{Counts, Form, Statement};
