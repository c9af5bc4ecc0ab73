// A source and a sink that never fail.
ghost use Rattle.std.specs.Prelude.{◌≡◌, ℕ, ◌<◌, List, Some, None, Ok, min, length, drop, IfOk};
ghost use Rattle.std.specs.Io.{ReadsAtMost, WritesAtMost};
ghost use Rattle.std.specs.Io.KnownBytes.{ReadConsumes, WriteAppends};
ghost use Rattle.affine_io.specs.Faults.{HasCause};

use crate::remaining::Remaining;
use crate::{Failed, Sink, Source};
use std::marker::Model;

/// A source over bytes in memory that never fails.
///
/// Its count of faults is always 0.
#[derive(Drop)]
pub struct NeverSource {
    left: Remaining,
}

impl Model for NeverSource {
    ghost Value = { List ℕ };

    ghost view = { λ s. s.left };
}

impl NeverSource {
    /// A source that gives these bytes.
    pub fn new(bytes: Vec<u8>) -> NeverSource
        ensures { result ≡ bytes.items }
    {
        NeverSource {
            left: Remaining::new(bytes),
        }
    }
}

impl Source for NeverSource {
    ghost left = { λ s. Some s };

    ghost faults = { λ _. 0 };

    fn read(&mut self, into: &mut [u8]) -> Result<usize, Failed>
        ensures bound { ReadsAtMost result into.new }
        ensures bytes { ReadConsumes (Some self.old) (Some self.new) result into.new }
        ensures cause { HasCause 0 0 result }

        // It gives all that is left, or as much of it as there is room for.
        ensures count { result ≡ Ok (min (length into.old) (length self.old)) }
        ensures ok { IfOk result (λ n. self.new ≡ drop n self.old) }
        ensures behind { IfOk result (λ n. drop n into.new ≡ drop n into.old) }
    {
        let room = into.len();
        Ok(self.left.give(room, into))
    }
}

/// A sink that never fails, takes every piece whole and keeps none of it.
///
/// Its count of faults is always 0.
#[derive(Clone, Copy)]
pub struct NeverSink;

impl NeverSink {
    /// The sink, which has no state.
    pub fn new() -> NeverSink {
        NeverSink
    }
}

impl Sink for NeverSink {
    ghost contents = { λ _. None };

    ghost faults = { λ _. 0 };

    fn write(&mut self, piece: &[u8]) -> Result<usize, Failed>
        ensures bound { WritesAtMost result piece.now }
        ensures moves { IfOk result (λ n. 0 < length piece.now → 0 < n) }
        ensures bytes { WriteAppends None None result piece.now }
        ensures cause { HasCause 0 0 result }
        ensures count { result ≡ Ok (length piece.now) }
    {
        Ok(piece.len())
    }
}
