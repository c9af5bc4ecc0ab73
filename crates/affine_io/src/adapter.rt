// Adapters over the readers and writers of std.
ghost use Rattle.std.specs.Prelude.{◌≡◌, ◌<◌, None, length, IfOk, OnOk, OnErr};
ghost use Rattle.std.specs.Io.{ReadsAtMost, WritesAtMost};
ghost use Rattle.std.specs.Io.KnownBytes.{ReadConsumes, WriteAppends};
ghost use Rattle.affine_io.specs.Faults.{HasCause, next_count};

use crate::{Failed, Sink, Source};
use std::io::{Read, Write};

/// A source over one of std's readers. It tells no contents.
///
/// Each error that the reader answers is a fault, also one that asks for another try.
#[derive(Drop)]
pub struct StdSource<R> {
    reader: R,
    faults: u64,
}

impl<R> StdSource<R> {
    ghost use Rattle.affine_io.specs.Adapters.{source_reader, source_faults};

    /// A source that reads from this reader and has not failed yet.
    pub fn new(reader: R) -> StdSource<R>
        ensures reader { source_reader result ≡ reader }
        ensures faults { source_faults result ≡ 0 }
    {
        StdSource { reader, faults: 0 }
    }
}

impl<R: Read> Source for StdSource<R> {
    ghost use Rattle.affine_io.specs.Adapters.{source_reader, source_faults};

    ghost left = { λ _. None };

    ghost faults = { source_faults };

    fn read(&mut self, into: &mut [u8]) -> Result<usize, Failed>
        ensures bound { ReadsAtMost result into.new }
        ensures bytes { ReadConsumes None None result into.new }
        ensures cause { HasCause (source_faults self.old) (source_faults self.new) result }

        // What comes is what the reader gave, where it tells.
        ensures passes { ReadConsumes (R.remaining (source_reader self.old))
            (R.remaining (source_reader self.new)) result into.new }
        ensures ok { OnOk result (source_faults self.new ≡ source_faults self.old) }
        ensures err { OnErr result (source_faults self.new ≡ next_count (source_faults self.old)) }
    {
        match self.reader.read(into) {
            Ok(count) => Ok(count),
            Err(_) => {
                self.faults = self.faults.saturating_add(1);
                Err(Failed)
            }
        }
    }
}

/// A sink over one of std's writers. It tells no contents.
///
/// Each error that the writer answers is a fault, and so is a write that takes nothing of a piece
/// that has bytes.
#[derive(Drop)]
pub struct StdSink<W> {
    writer: W,
    faults: u64,
}

impl<W> StdSink<W> {
    ghost use Rattle.affine_io.specs.Adapters.{sink_writer, sink_faults};

    /// A sink that writes to this writer and has not failed yet.
    pub fn new(writer: W) -> StdSink<W>
        ensures writer { sink_writer result ≡ writer }
        ensures faults { sink_faults result ≡ 0 }
    {
        StdSink { writer, faults: 0 }
    }
}

impl<W: Write> Sink for StdSink<W> {
    ghost use Rattle.affine_io.specs.Adapters.{sink_writer, sink_faults};

    ghost contents = { λ _. None };

    ghost faults = { sink_faults };

    fn write(&mut self, piece: &[u8]) -> Result<usize, Failed>
        ensures bound { WritesAtMost result piece.now }
        ensures moves { IfOk result (λ n. 0 < length piece.now → 0 < n) }
        ensures bytes { WriteAppends None None result piece.now }
        ensures cause { HasCause (sink_faults self.old) (sink_faults self.new) result }

        // What goes out is what the writer took, where it tells.
        ensures passes { WriteAppends (W.contents (sink_writer self.old))
            (W.contents (sink_writer self.new)) result piece.now }
        ensures ok { OnOk result (sink_faults self.new ≡ sink_faults self.old) }
        ensures err { OnErr result (sink_faults self.new ≡ next_count (sink_faults self.old)) }
    {
        match self.writer.write(piece) {
            Ok(count) if count > 0 || piece.is_empty() => Ok(count),
            _ => {
                self.faults = self.faults.saturating_add(1);
                Err(Failed)
            }
        }
    }
}
