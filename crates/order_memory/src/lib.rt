//! The memory of the machine of all orders: what an action, once its operands are read, and each step of an engine do to it.
//!
//! `Memory` has the values of names, the slow list, the halves of each fast memref, here or away, and the outstanding
//! transfers with the lists that were moved out of their halves. `specs/Tied` says when it stands for a state of
//! `order_meaning`'s machine. Each call then answers as that machine, and leaves the memory standing for the state after
//! it. The tests on what is outstanding are `transfer_records`', the halves of a text `fast_rooms`', the
//! steps of engines `order_engines`'. No call takes memory but
//! `Memory::new`.
#![tactic(auto)]

mod memory;

pub use memory::Memory;
