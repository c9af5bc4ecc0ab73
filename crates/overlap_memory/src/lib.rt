//! The compute thread's memory beside engines: what each action does to it, as the prompt meaning has it.
//!
//! Slow places are words of a bus, halves of fast memrefs are moved to its engines and back, and the transfers that are
//! outstanding stand on record. `specs/Tied` says when such a memory, whatever the engines have done by now, stands for
//! a state of the prompt meaning, in which each transfer completes at its start. Each call here then answers, and
//! leaves the memory, as that meaning has it. A gate is called before each collect, and says whether this thread may serve as
//! engine 0 while it waits. No call takes memory but `Memory::new`. The crate stands on
//! `prompt_semantics`, on `transfer_records` for the tests of what is outstanding, on `tag_table` and `dma_engine` for the bus, on `fast_halves` for the halves, and on
//! `order_meaning` for what is allocated.
#![tactic(auto)]

mod memory;
mod records;
mod waiting;

pub use memory::Memory;
