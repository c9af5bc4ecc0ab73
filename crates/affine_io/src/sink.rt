// Where bytes go.
ghost use Rattle.std.specs.Prelude.{◌≡◌, ℕ, ◌<◌, List, Option, length, take, IfOk, IfErr, OnOk};
ghost use Rattle.std.specs.Io.{WritesAtMost};
ghost use Rattle.std.specs.Io.KnownBytes.{Appends, WriteAppends};
ghost use Rattle.affine_io.specs.Faults.{HasCause};

use crate::Failed;
use thiserror::Error;

/// What takes bytes, piece by piece.
pub trait Sink {
    /// The bytes that the sink took, where it tells them.
    ghost contents: { Self → Option (List ℕ) };

    /// How often the sink failed.
    ghost faults: { Self → ℕ };

    /// Takes the first bytes of a piece, and says how many: at least one where the piece has one.
    ///
    /// A call that failed took no byte.
    fn write(&mut self, piece: &[u8]) -> Result<usize, Failed>
        ensures bound { WritesAtMost result piece.now }
        ensures moves { IfOk result (λ n. 0 < length piece.now → 0 < n) }
        ensures bytes { WriteAppends (contents self.old) (contents self.new) result piece.now }
        ensures cause { HasCause (faults self.old) (faults self.new) result };
}

/// The sink failed before it had taken all bytes.
#[derive(Clone, Copy, Debug, Error)]
#[error("the sink failed after {written} bytes")]
pub struct WriteFault {
    /// How many bytes went out before the fault.
    pub written: usize,
}

/// Writes all bytes. It takes no memory of its own.
///
/// Where the sink fails, the first `written` bytes went out and no others.
pub fn write_all<K: Sink>(sink: &mut K, bytes: &[u8]) -> Result<(), WriteFault>
    ensures whole { OnOk result (Appends (K.contents sink.old) (K.contents sink.new) bytes.now) }
    ensures short { IfErr result (λ fault. fault.written < length bytes.now) }
    ensures prefix { IfErr result (λ fault.
        Appends (K.contents sink.old) (K.contents sink.new) (take fault.written bytes.now)) }
    ensures cause { HasCause (K.faults sink.old) (K.faults sink.new) result }
{
    let mut written = 0;
    while written < bytes.len() {
        match sink.write(&bytes[written..]) {
            Ok(count) => written += count,
            Err(Failed) => return Err(WriteFault { written }),
        }
    }
    Ok(())
}
