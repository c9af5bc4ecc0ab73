//! The actions of plain statements by number: what each means, and how it is made from what is known at its place.
//!
//! A walk keeps in tables by number what `direct_meaning` says of names. Here stand the types of actions, these tables,
//! and for each kind of plain statement the function that makes its action. What an action means is `specs/Meant`, what
//! the tables say is `specs/Looked`. No call takes memory but the making of the tables. The crate stands on
//! `walk_program`, on `direct_meaning` for the meaning of each statement, and on `valid_laws` for the premise that all
//! numbers fit.
#![tactic(auto)]

mod action;
mod change;
mod environment;
mod maps;
mod places;
mod statements;
mod transfers;

pub use action::{Action, Home, Operand, Place};
pub use change::Change;
pub use environment::Environment;
pub use places::within;
