// Where bytes come from.
ghost use Rattle.std.specs.Prelude.{◌≡◌, ℕ, ◌<◌, ◌≤◌, List, Option, length, IfOk, IfErr, IfSome, OnOk, IsErrOf};
ghost use Rattle.std.specs.Io.{ReadsAtMost};
ghost use Rattle.std.specs.Io.KnownBytes.{Consumes, IsAtEnd, ReadConsumes};
ghost use Rattle.affine_io.specs.Faults.{HasCause, Rose};
ghost use Rattle.affine_io.specs.Stops.{StopsAfter};

use std::alloc::Global;
use thiserror::Error;

/// A source or a sink failed at this call.
#[derive(Clone, Copy, Debug, Error)]
#[error("a read or a write failed")]
pub struct Failed;

/// What gives bytes, piece by piece.
pub trait Source {
    /// The bytes that are left, where the source tells them.
    ghost left: { Self → Option (List ℕ) };

    /// How often the source failed.
    ghost faults: { Self → ℕ };

    /// Puts the next bytes at the front of a slice, and says how many.
    ///
    /// None for a slice that has room means that the source is at its end. A call that failed took
    /// no byte.
    fn read(&mut self, into: &mut [u8]) -> Result<usize, Failed>
        ensures bound { ReadsAtMost result into.new }
        ensures bytes { ReadConsumes (left self.old) (left self.new) result into.new }
        ensures cause { HasCause (faults self.old) (faults self.new) result };
}

/// Why the reading of a source stopped before its end.
#[derive(Clone, Copy, Debug, Error)]
pub enum ReadStop {
    /// The source failed.
    #[error("the source failed")]
    Fault,
    /// The source gave a byte past the limit.
    #[error("the source is too long")]
    TooLong,
    /// There was no memory for a piece that had come.
    #[error("out of memory")]
    Memory,
}

/// How many bytes [`read_all`] asks for in one call.
pub const READ_PIECE: usize = 4096;

/// Reads a source to its end.
///
/// A source of more than `limit` bytes is refused once the first byte past the limit has come.
/// After each refusal the source has lost the bytes that it gave. Want of memory may come
/// wherever a piece is kept.
pub fn read_all<S: Source>(alloc: Global, source: &mut S, limit: usize) -> Result<Vec<u8>, ReadStop>
    ensures whole { IfOk result (λ v. IfSome (S.left source.old) (λ bytes. v.items ≡ bytes)) }
    ensures bytes { IfOk result (λ v. Consumes (S.left source.old) (S.left source.new) v.items) }
    ensures end { OnOk result (IsAtEnd (S.left source.new)) }
    ensures within { IfOk result (λ v. length v.items ≤ limit) }

    // `too_long` speaks of the whole contents, `stopped` of the bytes that came.
    ensures too_long { IsErrOf result ReadStop.TooLong →
        IfSome (S.left source.old) (λ bytes. limit < length bytes) }
    ensures stopped { IfErr result (λ stop.
        StopsAfter stop limit (S.left source.old) (S.left source.new)) }
    ensures fault { IsErrOf result ReadStop.Fault →
        Rose (S.faults source.old) (S.faults source.new) }
    ensures later { S.faults source.old ≤ S.faults source.new }
{
    let mut bytes = Vec::new(alloc);
    let mut piece = [0u8; READ_PIECE];
    loop {
        let Ok(count) = source.read(&mut piece) else {
            return Err(ReadStop::Fault);
        };
        if count == 0 {
            return Ok(bytes);
        }
        if count > limit - bytes.len() {
            return Err(ReadStop::TooLong);
        }
        let Ok(()) = bytes.extend_from_slice(&piece[..count]) else {
            return Err(ReadStop::Memory);
        };
    }
}
