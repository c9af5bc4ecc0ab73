//! Where bytes come from and where they go: sources, sinks, and the loops that read or write all.
//!
//! A source tells the bytes that it has left and a sink those that it took, where they are known,
//! and each keeps a count of its faults. [`read_all`] gives the whole contents of a source and
//! [`write_all`] puts out all of its bytes. Their refusals have a cause: a count of faults that
//! rose, a limit that was passed, or want of memory. Sources and sinks in memory fail at chosen
//! calls or never, and the adapters stand on std's readers and writers.
#![tactic(auto)]

mod adapter;
mod mem_sink;
mod mem_source;
mod never;
mod remaining;
mod sink;
mod source;

pub use adapter::{StdSink, StdSource};
pub use mem_sink::MemSink;
pub use mem_source::MemSource;
pub use never::{NeverSink, NeverSource};
pub use sink::{Sink, WriteFault, write_all};
pub use source::{Failed, READ_PIECE, ReadStop, Source, read_all};
