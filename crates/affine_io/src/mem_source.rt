// A source in memory, which fails at chosen calls.
ghost use Rattle.std.specs.Prelude.{◌≡◌, ◌↔◌, ◌<◌, Some, length, drop, IsErr, IfOk, OnErr};
ghost use Rattle.std.specs.Io.{ReadsAtMost};
ghost use Rattle.std.specs.Io.KnownBytes.{ReadConsumes};
ghost use Rattle.affine_io.specs.Faults.{HasCause, next_count};
ghost use Rattle.affine_io.specs.Memory.{SourceState, IsReadRefused, given_count};

use crate::remaining::Remaining;
use crate::{Failed, Source};
use std::marker::Model;

/// A source over bytes in memory.
///
/// It gives at most `most` bytes a call, and fails at the calls whose numbers `fails` names. The
/// first call has number 1, and a call's number stays at 2^64 - 1 once that is reached.
#[derive(Drop)]
pub struct MemSource {
    left: Remaining,
    calls: u64,
    faults: u64,
    fails: Vec<u64>,
    most: usize,
}

impl Model for MemSource {
    ghost Value = { SourceState };

    ghost view = { λ s. record {
      left = s.left;
      calls = s.calls;
      faults = s.faults;
      fails = s.fails.items;
      most = s.most;
    } };

    ghost invariant = { λ s. 0 < s.most };
}

impl MemSource {
    /// A source that gives these bytes and had no call yet.
    pub fn new(bytes: Vec<u8>, fails: Vec<u64>, most: usize) -> MemSource
        requires { 0 < most }
        ensures { result ≡ record {
          left = bytes.items;
          calls = 0;
          faults = 0;
          fails = fails.items;
          most = most;
        } }
    {
        MemSource {
            left: Remaining::new(bytes),
            calls: 0,
            faults: 0,
            fails,
            most,
        }
    }
}

impl Source for MemSource {
    ghost left = { λ s. Some s.left };

    ghost faults = { λ s. s.faults };

    fn read(&mut self, into: &mut [u8]) -> Result<usize, Failed>
        ensures bound { ReadsAtMost result into.new }
        ensures bytes { ReadConsumes (Some self.old.left) (Some self.new.left) result into.new }
        ensures cause { HasCause self.old.faults self.new.faults result }

        // A call that fails changes the two counts alone.
        ensures fails { IsErr result ↔ IsReadRefused self.old }
        ensures err { OnErr result (self.new ≡ record self.old {
          calls = next_count self.old.calls;
          faults = next_count self.old.faults;
        }) }
        ensures untouched { OnErr result (into.new ≡ into.old) }

        // Any other call gives as many bytes as it can.
        ensures count { IfOk result (λ n. n ≡ given_count self.old (length into.old)) }
        ensures ok { IfOk result (λ n. self.new ≡ record self.old {
          left = drop n self.old.left;
          calls = next_count self.old.calls;
        }) }
        ensures behind { IfOk result (λ n. drop n into.new ≡ drop n into.old) }
    {
        self.calls = self.calls.saturating_add(1);
        if self.fails.contains(&self.calls) {
            self.faults = self.faults.saturating_add(1);
            return Err(Failed);
        }
        Ok(self.left.give(self.most, into))
    }
}
