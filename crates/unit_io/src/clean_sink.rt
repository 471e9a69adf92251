// A sink in memory that never fails.
ghost use Rattle.std.specs.Prelude.{◌≡◌, ◌<◌, ◌≤◌, [], length, Some, IfOk, IsOk};
ghost use Rattle.std.specs.Io.{WritesAtMost};
ghost use Rattle.std.specs.Io.KnownBytes.{Keeps, WriteAppends};

use crate::{Sink, SinkFault};
use std::alloc::Global;

/// Takes bytes into memory, at most so many a call. It never fails, though it may find no memory.
#[derive(Drop)]
pub struct CleanSink {
    bytes: Vec<u8>,
    step: usize,
    ghost some: { 0 < step },
}

impl CleanSink {
    ghost use Rattle.unit_io.specs.Steps.{clean_sink_step};

    /// How many bytes it takes at most in one call: at least one.
    pub fn new(alloc: Global, step: usize) -> CleanSink
        requires { 0 < step }
        ensures held { ⟦<CleanSink as Sink>⟧.held result ≡ Some [] }
        ensures step { clean_sink_step result ≡ step }
    {
        CleanSink {
            bytes: Vec::new(alloc),
            step,
        }
    }

    /// The bytes that it took.
    pub fn held(&self) -> &[u8]
        ensures { ⟦<CleanSink as Sink>⟧.held self.now ≡ Some result.now }
    {
        self.bytes.as_slice()
    }
}

impl Sink for CleanSink {
    ghost use Rattle.unit_io.specs.Faults.{HasSinkCause, Rose};
    ghost use Rattle.unit_io.specs.Steps.{clean_sink_step};

    ghost held = { λ s. Some s.bytes.items };

    ghost faults = { λ _. 0 };

    fn write(&mut self, piece: &[u8]) -> Result<usize, SinkFault>
        ensures bound { WritesAtMost result piece.now }
        ensures bytes { WriteAppends (⟦<CleanSink as Sink>⟧.held self.old)
            (⟦<CleanSink as Sink>⟧.held self.new) result piece.now }
        ensures cause { HasSinkCause 0 0 result }
        ensures stuck { IfOk result (λ n. n ≡ 0 → 0 < length piece.now → Rose 0 0) }
        ensures step { IfOk result (λ n. n ≤ clean_sink_step self.old) }
        ensures keeps { clean_sink_step self.new ≡ clean_sink_step self.old }
    {
        let count = self.step.min(piece.len());
        match self.bytes.extend_from_slice(&piece[..count]) {
            Ok(()) => Ok(count),
            Err(_) => Err(SinkFault::Memory),
        }
    }

    fn flush(&mut self) -> Result<(), SinkFault>
        ensures bytes { Keeps (⟦<CleanSink as Sink>⟧.held self.old) (⟦<CleanSink as Sink>⟧.held self.new) }
        ensures cause { HasSinkCause 0 0 result }
        ensures ok { IsOk result }
        ensures keeps { clean_sink_step self.new ≡ clean_sink_step self.old }
    {
        Ok(())
    }
}
