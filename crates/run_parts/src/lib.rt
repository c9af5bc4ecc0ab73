//! What the executors of a module share: registers by number, what an action comes to once its operands are read, and memories
//! as one slow list.
//!
//! `Registers` holds the values of names. `Registers::settle` reads the operands of an action and makes the arithmetic; what is
//! left is an `Effect`, which the executor takes on its own memory: a name's new value, a load, a store, an allocation, a
//! transfer. `specs/Settled` says what an action is with its operands read, and a law for each meaning says that taking it so
//! is taking the action. The crate stands on `walk_actions` and takes no memory but in `Registers::new` and for slow lists.
#![tactic(auto)]

mod effect;
mod elements;
mod image;
mod operations;
mod registers;

pub use effect::Effect;
pub use image::{copies, flat, refill};
pub use registers::Registers;
