// Bytes in memory that are given away from the front.
ghost use Rattle.std.specs.Prelude.{◌≡◌, ℕ, ◌≤◌, ◌++◌, List, min, length, take, drop};

use std::marker::Model;

/// The bytes that a source in memory has left.
#[derive(Drop)]
pub struct Remaining {
    bytes: Vec<u8>,
    at: usize,
}

impl Model for Remaining {
    ghost Value = { List ℕ };

    ghost view = { λ r. drop r.at r.bytes.items };

    ghost invariant = { λ r. r.at ≤ length r.bytes.items };
}

impl Remaining {
    /// All of these bytes are left.
    pub fn new(bytes: Vec<u8>) -> Remaining
        ensures { result ≡ bytes.items }
    {
        Remaining { bytes, at: 0 }
    }

    /// Moves the next bytes to the front of `into` and says how many: as many as are left, as fit
    /// and as `most` allows. What stands behind them stays.
    pub fn give(&mut self, most: usize, into: &mut [u8]) -> usize
        ensures count { result ≡ min (min most (length into.old)) (length self.old) }
        ensures rest { self.new ≡ drop result self.old }
        ensures front { self.old ≡ take result into.new ++ self.new }
        ensures behind { drop result into.new ≡ drop result into.old }
    {
        let rest = &self.bytes[self.at..];
        let count = most.min(into.len()).min(rest.len());
        into[..count].copy_from_slice(&rest[..count]);
        self.at += count;
        count
    }
}
