// A source in memory some of whose calls fail.
ghost use Rattle.std.specs.Prelude.{◌≡◌, ◌+◌, ◌-◌, ◌^◌, ◌<◌, ◌≤◌, ◌↔◌, min, IfOk, IsErr, Some};
ghost use Rattle.std.specs.Io.{ReadsAtMost};
ghost use Rattle.std.specs.Io.KnownBytes.{ReadConsumes};
ghost use Rattle.unit_io.specs.Failures.{failures, Fails};
ghost use Rattle.unit_io.specs.Faults.{HasCause};
ghost use Rattle.unit_io.specs.Steps.{mem_source_step, mem_source_calls, mem_source_failing};

use crate::failing::Failing;
use crate::{CleanSource, Failed, Source};

/// Gives bytes of its own, at most so many a call. The calls with some numbers fail.
#[derive(Drop)]
pub struct MemSource {
    source: CleanSource,
    failing: Failing,
}

impl MemSource {
    /// The bytes that it gives, how many of them at most in one call (at least one), and the numbers of the calls
    /// that fail, from 0. The count of calls stops at the greatest `u64`, and from there on none fails.
    pub fn new(bytes: Vec<u8>, step: usize, failing: Vec<u64>) -> MemSource
        requires { 0 < step }
        ensures left { ⟦<MemSource as Source>⟧.left result ≡ Some bytes.items }
        ensures faults { ⟦<MemSource as Source>⟧.faults result ≡ failures failing.items 0 }
        ensures step { mem_source_step result ≡ step }
        ensures calls { mem_source_calls result ≡ 0 }
        ensures list { mem_source_failing result ≡ failing.items }
    {
        MemSource {
            source: CleanSource::new(bytes, step),
            failing: Failing {
                numbers: failing,
                calls: 0,
            },
        }
    }
}

impl Source for MemSource {
    ghost left = { λ s. ⟦<CleanSource as Source>⟧.left s.source };

    ghost faults = { λ s. failures (mem_source_failing s) (mem_source_calls s) };

    fn read(&mut self, buf: &mut [u8]) -> Result<usize, Failed>
        ensures bound { ReadsAtMost result buf.new }
        ensures bytes { ReadConsumes (⟦<MemSource as Source>⟧.left self.old)
            (⟦<MemSource as Source>⟧.left self.new) result buf.new }
        ensures cause { HasCause (⟦<MemSource as Source>⟧.faults self.old)
            (⟦<MemSource as Source>⟧.faults self.new) result }
        ensures fails { IsErr result ↔
            (⟦<MemSource as Source>⟧.faults self.old < ⟦<MemSource as Source>⟧.faults self.new) }
        ensures step { IfOk result (λ n. n ≤ mem_source_step self.old) }
        ensures keeps { mem_source_step self.new ≡ mem_source_step self.old }

        // Each call is counted, and fails where its number stands in the list.
        ensures calls { mem_source_calls self.new ≡ min (mem_source_calls self.old + 1) (2 ^ 64 - 1) }
        ensures list { mem_source_failing self.new ≡ mem_source_failing self.old }
        ensures exact { IsErr result ↔ Fails (mem_source_failing self.old) (mem_source_calls self.old) }
    {
        if self.failing.next() {
            return Err(Failed);
        }
        self.source.read(buf)
    }
}
