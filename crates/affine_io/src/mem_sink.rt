// A sink in memory, which fails at chosen calls and where it is full.
ghost use Rattle.std.specs.Prelude.{◌≡◌, ◌↔◌, ◌<◌, ◌≤◌, ◌++◌, Some, [], length, take, IsErr, IfOk, OnErr, vec_capacity};
ghost use Rattle.std.specs.Io.{WritesAtMost};
ghost use Rattle.std.specs.Io.KnownBytes.{WriteAppends};
ghost use Rattle.affine_io.specs.Faults.{HasCause, next_count};
ghost use Rattle.affine_io.specs.Memory.{SinkState, IsWriteRefused, taken_count};

use crate::{Failed, Sink};
use std::alloc::{AllocError, Global};
use std::marker::Model;

/// A sink in memory with room for a number of bytes.
///
/// It takes at most `most` bytes a call. It fails at the calls whose numbers `fails` names, and
/// where a piece that has bytes finds no room left. The first call has number 1, and a call's
/// number stays at 2^64 - 1 once that is reached.
#[derive(Drop)]
pub struct MemSink {
    bytes: Vec<u8>,
    room: usize,
    calls: u64,
    faults: u64,
    fails: Vec<u64>,
    most: usize,
}

impl Model for MemSink {
    ghost Value = { SinkState };

    ghost view = { λ s. record {
      bytes = s.bytes.items;
      room = s.room;
      calls = s.calls;
      faults = s.faults;
      fails = s.fails.items;
      most = s.most;
    } };

    ghost invariant = { λ s. (length s.bytes.items ≤ s.room)
        × (s.room ≤ vec_capacity s.bytes)
        × (0 < s.most) };
}

impl MemSink {
    /// A sink that holds no byte and had no call yet.
    ///
    /// The memory for all of its room is taken here, and none later.
    pub fn new(
        alloc: Global,
        room: usize,
        fails: Vec<u64>,
        most: usize,
    ) -> Result<MemSink, AllocError>
        requires { 0 < most }
        ensures { IfOk result (λ sink. sink ≡ record {
          bytes = [];
          room = room;
          calls = 0;
          faults = 0;
          fails = fails.items;
          most = most;
        }) }
    {
        Ok(MemSink {
            bytes: Vec::with_capacity(alloc, room)?,
            room,
            calls: 0,
            faults: 0,
            fails,
            most,
        })
    }

    /// The bytes that the sink took, in the order in which they came.
    pub fn bytes(&self) -> &[u8]
        ensures { result.now ≡ self.now.bytes }
    {
        &self.bytes
    }
}

impl Sink for MemSink {
    ghost contents = { λ s. Some s.bytes };

    ghost faults = { λ s. s.faults };

    fn write(&mut self, piece: &[u8]) -> Result<usize, Failed>
        ensures bound { WritesAtMost result piece.now }
        ensures moves { IfOk result (λ n. 0 < length piece.now → 0 < n) }
        ensures bytes { WriteAppends (Some self.old.bytes) (Some self.new.bytes) result piece.now }
        ensures cause { HasCause self.old.faults self.new.faults result }

        // A call that fails changes the two counts alone.
        ensures fails { IsErr result ↔ IsWriteRefused self.old piece.now }
        ensures err { OnErr result (self.new ≡ record self.old {
          calls = next_count self.old.calls;
          faults = next_count self.old.faults;
        }) }

        // Any other call takes as many bytes as it can.
        ensures count { IfOk result (λ n. n ≡ taken_count self.old piece.now) }
        ensures ok { IfOk result (λ n. self.new ≡ record self.old {
          bytes = self.old.bytes ++ take n piece.now;
          calls = next_count self.old.calls;
        }) }
    {
        self.calls = self.calls.saturating_add(1);
        let left = self.room - self.bytes.len();
        let is_full = left == 0 && !piece.is_empty();
        if self.fails.contains(&self.calls) || is_full {
            self.faults = self.faults.saturating_add(1);
            return Err(Failed);
        }
        let count = self.most.min(piece.len()).min(left);
        self.bytes.extend_from_slice(&piece[..count]).unwrap();
        Ok(count)
    }
}
