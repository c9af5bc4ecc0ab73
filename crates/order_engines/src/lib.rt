//! The outstanding transfers of the machine, and the steps of its engines.
//!
//! `Flights` has the transfers in the order of their starts, each with its half's cells, its moved count and its
//! engine, and beside them the tags that an engine can take, ascending. So a step looks at what is outstanding alone:
//! idle tags cost nothing. Which steps there are, and what each does, is `order_meaning`'s. No call takes memory: whoever
//! makes the lists gives them their room.
#![tactic(auto)]

mod engines;
mod flights;
mod flying;

pub use engines::place_of;
pub use flights::Flights;
pub use flying::Flying;
