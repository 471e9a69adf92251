// Sinks of bytes.
ghost use Rattle.std.specs.Prelude.{◌≡◌, ◌<◌, List, ℕ, Option, length, IfOk, OnOk, OnErr};
ghost use Rattle.std.specs.Io.{WritesAtMost};
ghost use Rattle.std.specs.Io.KnownBytes.{Appends, Keeps, WriteAppends};
ghost use Rattle.unit_io.specs.Faults.{Rose, HasSinkCause, AppendsPart};

use thiserror::Error;

/// Why a sink took nothing, or not all.
#[derive(Clone, Copy, Debug, PartialEq, Eq, Error)]
pub enum SinkFault {
    /// It could not be written.
    #[error("the sink could not be written")]
    Failed,

    /// It found no memory for the bytes.
    #[error("out of memory")]
    Memory,
}

/// Where bytes go.
pub trait Sink {
    /// The bytes that it took, where it tells them.
    ghost held: { Self → Option (List ℕ) };

    /// How often it has failed, up to the greatest `u64`, where the count stands still.
    ghost faults: { Self → ℕ };

    /// Takes some first bytes of the piece, and says how many. To take none of some is a failure too, and is
    /// counted. A refusal takes nothing.
    fn write(&mut self, piece: &[u8]) -> Result<usize, SinkFault>
        ensures bound { WritesAtMost result piece.now }
        ensures bytes { WriteAppends (held self.old) (held self.new) result piece.now }
        ensures cause { HasSinkCause (faults self.old) (faults self.new) result }
        ensures stuck { IfOk result (λ n. n ≡ 0 → 0 < length piece.now
            → Rose (faults self.old) (faults self.new)) };

    /// Passes on what it took.
    fn flush(&mut self) -> Result<(), SinkFault>
        ensures bytes { Keeps (held self.old) (held self.new) }
        ensures cause { HasSinkCause (faults self.old) (faults self.new) result };
}

/// Writes all of the bytes. At a refusal the sink took some first of them, and not all, so that no bytes are never
/// refused.
pub fn put_all<K: Sink>(sink: &mut K, bytes: &[u8]) -> Result<(), SinkFault>
    ensures ok { OnOk result (Appends (K.held sink.old) (K.held sink.new) bytes.now) }
    ensures err { OnErr result (AppendsPart (K.held sink.old) (K.held sink.new) bytes.now) }
    ensures cause { HasSinkCause (K.faults sink.old) (K.faults sink.new) result }
{
    let mut done = 0;
    while done < bytes.len() {
        let taken = sink.write(&bytes[done..])?;
        if taken == 0 {
            return Err(SinkFault::Failed);
        }
        done += taken;
    }
    Ok(())
}
