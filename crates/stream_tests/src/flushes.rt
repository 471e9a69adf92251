// The order in which a run writes and flushes.
ghost use Rattle.std.specs.Prelude.{Some};

use crate::runs::{MOST, run_line};
use recode_run::status::Status;
use std::alloc::{AllocError, Global};
use std::cell::Cell;
use unit_io::{CleanSource, Sink, SinkFault};

/// A sink that takes all bytes and notes when it was first written, last written, and last flushed, by a clock that ticks
/// at each of these. Its flushes may fail.
#[derive(Drop)]
struct Noted<'a> {
    clock: &'a Cell<u64>,
    bytes: Vec<u8>,
    first_write: Option<u64>,
    last_write: u64,
    last_flush: u64,
    flushes: u64,
    fails: bool,
}

impl<'a> Noted<'a> {
    fn new(alloc: Global, clock: &'a Cell<u64>, fails: bool) -> Noted<'a> {
        Noted {
            clock,
            bytes: Vec::new(alloc),
            first_write: None,
            last_write: 0,
            last_flush: 0,
            flushes: 0,
            fails,
        }
    }

    fn tick(&self) -> u64 {
        self.clock.set(self.clock.get().wrapping_add(1));
        self.clock.get()
    }
}

impl Sink for Noted<'_> {
    ghost held = { λ s. Some s.bytes.items };

    ghost faults = { λ s. s.flushes };

    fn write(&mut self, piece: &[u8]) -> Result<usize, SinkFault> {
        self.last_write = self.tick();
        self.first_write = self.first_write.or(Some(self.last_write));
        match self.bytes.extend_from_slice(piece) {
            Ok(()) => Ok(piece.len()),
            Err(_) => Err(SinkFault::Memory),
        }
    }

    fn flush(&mut self) -> Result<(), SinkFault> {
        self.last_flush = self.tick();
        self.flushes = self.flushes.saturating_add(1);
        if self.fails {
            Err(SinkFault::Failed)
        } else {
            Ok(())
        }
    }
}

/// A run: its input, whether the flushes of the stream and of the report fail, and what is due.
#[derive(Clone, Copy)]
struct Case<'a> {
    input: &'a [u8],
    out_fails: bool,
    report_fails: bool,
    status: Status,
    report: &'a str,
}

// Whether the stream is written and flushed before the report is, and this is flushed last.
fn is_in_order(alloc: Global, case: &Case<'_>) -> Result<bool, AllocError> {
    let clock = Cell::new(0);
    let mut src = CleanSource::new(case.input.to_vec(alloc)?, 3);
    let mut out = Noted::new(alloc, &clock, case.out_fails);
    let mut report = Noted::new(alloc, &clock, case.report_fails);
    let line = "recode --to cavlc --table flat";
    let status = run_line(alloc, line, &mut src, &mut out, &mut report, MOST)?;
    Ok(
        status == case.status
            && out.bytes.as_slice() == [0, 0, 0, 1, 9, 0x10].as_slice()
            && report.bytes.as_slice() == case.report.as_bytes()
            && out.last_write < out.last_flush
            && Some(out.last_flush) < report.first_write
            && report.last_write < report.last_flush
            && report.last_flush == clock.get(),
    )
}

#[test]
fn the_stream_is_flushed_before_the_report_is_written(rt: HostRuntime) -> Result<(), AllocError> {
    let good = Case {
        input: &[0, 0, 1, 9, 0x10],
        out_fails: false,
        report_fails: false,
        status: Status::Ok,
        report: "ok units 1 slices 0 macroblocks 0 in 5 out 6\n",
    };
    let failed = Case {
        out_fails: true,
        status: Status::WriteFault,
        report: "write fault\n",
        ..good
    };
    let cases = [
        good,
        failed,
        // a slice without a set
        Case {
            input: &[0, 0, 1, 9, 0x10, 0, 0, 1, 0x65, 0x88, 0x80],
            ..failed
        },
        Case {
            report_fails: true,
            status: Status::ReportFault,
            ..good
        },
    ];
    for case in &cases {
        let told = case.report;
        assert!(rt; is_in_order(rt.alloc(), case)?, "{told}");
    }
    Ok(())
}
