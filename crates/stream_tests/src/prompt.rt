// A unit is written as soon as its end was read.
use crate::runs::{MOST, run_line};
use recode_run::status::Status;
use std::alloc::AllocError;
use unit_io::{CleanSink, CleanSource, Failed, MemSink, Source};

/// A source that counts the bytes that it gives.
#[derive(Drop)]
struct Counted {
    source: CleanSource,
    given: u64,
}

impl Source for Counted {
    ghost left = { λ s. ⟦<CleanSource as Source>⟧.left s.source };

    ghost faults = { λ s. ⟦<CleanSource as Source>⟧.faults s.source };

    fn read(&mut self, buf: &mut [u8]) -> Result<usize, Failed> {
        let count = self.source.read(buf)?;
        self.given = self.given.saturating_add(count as u64);
        Ok(count)
    }
}

// The first of many units ends after eight bytes, and no more than a read behind them is taken.
#[test]
fn output_is_not_held_back(rt: HostRuntime) -> Result<(), AllocError> {
    let alloc = rt.alloc();
    let mut input = Vec::new(alloc);
    for _ in 0..200_000 {
        input.extend_from_slice(&[0, 0, 1, 9, 0x10])?;
    }
    let source = CleanSource::new(input, 1_000_000);
    let mut src = Counted { source, given: 0 };
    let mut out = MemSink::new(alloc, 100, [0].to_vec(alloc)?);
    let mut report = CleanSink::new(alloc, 100);
    let line = "recode --to cavlc --table flat";
    let status = run_line(alloc, line, &mut src, &mut out, &mut report, MOST)?;
    assert!(rt; status == Status::WriteFault && src.given <= 65_543);
    Ok(())
}
