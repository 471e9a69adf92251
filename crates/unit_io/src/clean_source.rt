// A source in memory that never fails.
ghost use Rattle.std.specs.Prelude.{◌≡◌, ◌<◌, ◌≤◌, length, take, drop, Some, vec_len, IfOk};
ghost use Rattle.std.specs.Io.{ReadsAtMost};
ghost use Rattle.std.specs.Io.KnownBytes.{ReadConsumes};

use crate::{Failed, Source};

/// Gives bytes of its own, at most so many a call, and never fails.
#[derive(Drop)]
pub struct CleanSource {
    bytes: Vec<u8>,
    at: usize,
    step: usize,
    ghost in_range: { at ≤ vec_len bytes },
    ghost some: { 0 < step },
}

impl CleanSource {
    ghost use Rattle.unit_io.specs.Steps.{clean_source_step};

    /// The bytes that it gives, and how many of them at most in one call: at least one.
    pub fn new(bytes: Vec<u8>, step: usize) -> CleanSource
        requires { 0 < step }
        ensures left { ⟦<CleanSource as Source>⟧.left result ≡ Some bytes.items }
        ensures step { clean_source_step result ≡ step }
    {
        CleanSource { bytes, at: 0, step }
    }
}

impl Source for CleanSource {
    ghost use Rattle.unit_io.specs.Faults.{HasCause};
    ghost use Rattle.unit_io.specs.Steps.{clean_source_step};

    ghost left = { λ s. Some (drop s.at s.bytes.items) };

    ghost faults = { λ _. 0 };

    fn read(&mut self, buf: &mut [u8]) -> Result<usize, Failed>
        ensures bound { ReadsAtMost result buf.new }
        ensures bytes { ReadConsumes (⟦<CleanSource as Source>⟧.left self.old)
            (⟦<CleanSource as Source>⟧.left self.new) result buf.new }
        ensures cause { HasCause 0 0 result }
        ensures step { IfOk result (λ n. n ≤ clean_source_step self.old) }
        ensures keeps { clean_source_step self.new ≡ clean_source_step self.old }
    {
        let count = copy_front(buf, &self.bytes[self.at..], self.step);
        self.at += count;
        Ok(count)
    }
}

// Copies some first bytes, at most so many, and says how many.
fn copy_front(buf: &mut [u8], from: &[u8], step: usize) -> usize
    ensures bound { result ≤ length buf.old }
    ensures fits { result ≤ length from.now }
    ensures bytes { take result buf.new ≡ take result from.now }
    ensures step { result ≤ step }
    ensures end { 0 < step → 0 < length buf.old → result ≡ 0 → length from.now ≡ 0 }
{
    let count = step.min(buf.len()).min(from.len());
    buf[..count].copy_from_slice(&from[..count]);
    count
}
