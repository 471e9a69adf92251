// Standard output and standard error as sinks.
ghost use Rattle.std.specs.Prelude.{◌≡◌, ◌<◌, None, length, IfOk};
ghost use Rattle.std.specs.Io.{WritesAtMost};
ghost use Rattle.std.specs.Io.KnownBytes.{Keeps, WriteAppends};
ghost use Rattle.unit_io.specs.Faults.{HasSinkCause, Rose};
ghost use Rattle.unit_io.specs.Standard.{writer_held};

use crate::{Sink, SinkFault};
use std::io::{ErrorKind, Write};

/// Writes standard output, standard error or another writer directly: it keeps no bytes back, and tells none to
/// contracts.
#[derive(Drop)]
pub struct StdSink<W> {
    writer: W,
    faults: u64,
}

impl<W: Write> StdSink<W> {
    /// A sink that has not failed yet. It takes no memory.
    pub fn new(writer: W) -> StdSink<W>
        ensures faults { ⟦<StdSink<W> as Sink>⟧.faults result ≡ 0 }
        ensures writer { writer_held W.contents result ≡ W.contents writer }
    {
        StdSink { writer, faults: 0 }
    }
}

impl<W: Write> Sink for StdSink<W> {
    ghost held = { λ _. None };

    ghost faults = { λ s. s.faults };

    fn write(&mut self, piece: &[u8]) -> Result<usize, SinkFault>
        ensures bound { WritesAtMost result piece.now }
        ensures bytes { WriteAppends (⟦<StdSink<W> as Sink>⟧.held self.old)
            (⟦<StdSink<W> as Sink>⟧.held self.new) result piece.now }
        ensures cause { HasSinkCause (⟦<StdSink<W> as Sink>⟧.faults self.old)
            (⟦<StdSink<W> as Sink>⟧.faults self.new) result }
        ensures stuck { IfOk result (λ n. n ≡ 0 → 0 < length piece.now →
            Rose (⟦<StdSink<W> as Sink>⟧.faults self.old) (⟦<StdSink<W> as Sink>⟧.faults self.new)) }

        // Its writer takes what it takes.
        ensures writer { WriteAppends (writer_held W.contents self.old)
            (writer_held W.contents self.new) result piece.now }
    {
        // A signal may interrupt a write, which is then tried again.
        for _ in 0..u64::MAX {
            match self.writer.write(piece) {
                Ok(0) if !piece.is_empty() => break,
                Ok(count) => return Ok(count),
                Err(error) if error.kind() == ErrorKind::Interrupted => {}
                Err(_) => break,
            }
        }
        self.faults = self.faults.saturating_add(1);
        Err(SinkFault::Failed)
    }

    fn flush(&mut self) -> Result<(), SinkFault>
        ensures bytes { Keeps (⟦<StdSink<W> as Sink>⟧.held self.old) (⟦<StdSink<W> as Sink>⟧.held self.new) }
        ensures cause { HasSinkCause (⟦<StdSink<W> as Sink>⟧.faults self.old)
            (⟦<StdSink<W> as Sink>⟧.faults self.new) result }
        ensures writer { Keeps (writer_held W.contents self.old) (writer_held W.contents self.new) }
    {
        match self.writer.flush() {
            Ok(()) => Ok(()),
            Err(_) => {
                self.faults = self.faults.saturating_add(1);
                Err(SinkFault::Failed)
            }
        }
    }
}
