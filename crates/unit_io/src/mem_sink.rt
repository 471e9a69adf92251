// A sink in memory some of whose writes fail.
ghost use Rattle.std.specs.Prelude.{◌≡◌, ◌+◌, ◌-◌, ◌^◌, ◌<◌, ◌≤◌, ◌↔◌, [], min, length, IfOk, IsOk, IsErrOf, Some};
ghost use Rattle.std.specs.Io.{WritesAtMost};
ghost use Rattle.std.specs.Io.KnownBytes.{Keeps, WriteAppends};
ghost use Rattle.unit_io.specs.Failures.{failures, Fails};
ghost use Rattle.unit_io.specs.Faults.{HasSinkCause, Rose};
ghost use Rattle.unit_io.specs.Steps.{mem_sink_step, mem_sink_calls, mem_sink_failing};

use crate::failing::Failing;
use crate::{CleanSink, Sink, SinkFault};
use std::alloc::Global;

/// Takes bytes into memory, at most so many a call. The writes with some numbers fail, and it may find no memory.
#[derive(Drop)]
pub struct MemSink {
    sink: CleanSink,
    failing: Failing,
}

impl MemSink {
    /// How many bytes it takes at most in one call (at least one), and the numbers of the writes that fail, from 0.
    /// The count of writes stops at the greatest `u64`, and from there on none fails. A flush isn't counted.
    pub fn new(alloc: Global, step: usize, failing: Vec<u64>) -> MemSink
        requires { 0 < step }
        ensures held { ⟦<MemSink as Sink>⟧.held result ≡ Some [] }
        ensures faults { ⟦<MemSink as Sink>⟧.faults result ≡ failures failing.items 0 }
        ensures step { mem_sink_step result ≡ step }
        ensures calls { mem_sink_calls result ≡ 0 }
        ensures list { mem_sink_failing result ≡ failing.items }
    {
        MemSink {
            sink: CleanSink::new(alloc, step),
            failing: Failing {
                numbers: failing,
                calls: 0,
            },
        }
    }

    /// The bytes that it took.
    pub fn held(&self) -> &[u8]
        ensures { ⟦<MemSink as Sink>⟧.held self.now ≡ Some result.now }
    {
        self.sink.held()
    }
}

impl Sink for MemSink {
    ghost held = { λ s. ⟦<CleanSink as Sink>⟧.held s.sink };

    ghost faults = { λ s. failures (mem_sink_failing s) (mem_sink_calls s) };

    fn write(&mut self, piece: &[u8]) -> Result<usize, SinkFault>
        ensures bound { WritesAtMost result piece.now }
        ensures bytes { WriteAppends (⟦<MemSink as Sink>⟧.held self.old)
            (⟦<MemSink as Sink>⟧.held self.new) result piece.now }
        ensures cause { HasSinkCause (⟦<MemSink as Sink>⟧.faults self.old)
            (⟦<MemSink as Sink>⟧.faults self.new) result }
        ensures stuck { IfOk result (λ n. n ≡ 0 → 0 < length piece.now →
            Rose (⟦<MemSink as Sink>⟧.faults self.old) (⟦<MemSink as Sink>⟧.faults self.new)) }
        ensures fails { IsErrOf result SinkFault.Failed ↔
            (⟦<MemSink as Sink>⟧.faults self.old < ⟦<MemSink as Sink>⟧.faults self.new) }
        ensures step { IfOk result (λ n. n ≤ mem_sink_step self.old) }
        ensures keeps { mem_sink_step self.new ≡ mem_sink_step self.old }

        // Each write is counted, and fails where its number stands in the list.
        ensures calls { mem_sink_calls self.new ≡ min (mem_sink_calls self.old + 1) (2 ^ 64 - 1) }
        ensures list { mem_sink_failing self.new ≡ mem_sink_failing self.old }
        ensures exact { IsErrOf result SinkFault.Failed ↔
            Fails (mem_sink_failing self.old) (mem_sink_calls self.old) }
    {
        if self.failing.next() {
            return Err(SinkFault::Failed);
        }
        self.sink.write(piece)
    }

    fn flush(&mut self) -> Result<(), SinkFault>
        ensures bytes { Keeps (⟦<MemSink as Sink>⟧.held self.old) (⟦<MemSink as Sink>⟧.held self.new) }
        ensures cause { HasSinkCause (⟦<MemSink as Sink>⟧.faults self.old)
            (⟦<MemSink as Sink>⟧.faults self.new) result }
        ensures ok { IsOk result }
        ensures keeps { mem_sink_step self.new ≡ mem_sink_step self.old }

        // It isn't counted.
        ensures calls { mem_sink_calls self.new ≡ mem_sink_calls self.old }
        ensures list { mem_sink_failing self.new ≡ mem_sink_failing self.old }
    {
        self.sink.flush()
    }
}
