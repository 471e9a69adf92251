// Runs over ends of which some calls fail, and within small bounds.
use crate::runs::{MOST, run_line};
use recode_run::status::Status;
use std::alloc::{AllocError, Global};
use unit_io::{MemSink, MemSource};

const CAVLC: &str = "recode --to cavlc --table flat";

const CABAC: &str = "recode --to cabac --table flat";

/// Five delimiters of which the last is cut behind its start code, and the four as they are written.
const DELIMITERS: &[u8] = &[
    0, 0, 1, 9, 0x10, 0, 0, 1, 9, 0x10, 0, 0, 1, 9, 0x10, 0, 0, 1, 9, 0x10, 0, 0, 1,
];

const WRITTEN: &[u8] = &[
    0, 0, 0, 1, 9, 0x10, 0, 0, 0, 1, 9, 0x10, 0, 0, 0, 1, 9, 0x10, 0, 0, 0, 1, 9, 0x10,
];

const CAVLC_PPS: &[u8] = &[0, 0, 1, 0x68, 0xCE, 0x38, 0x80];

const CABAC_PPS: &[u8] = &[0, 0, 0, 1, 0x68, 0xEE, 0x38, 0x80];

/// A run: its words and bound, its input and how many bytes of it come in a read, the numbers of the reads and writes that
/// fail, and what is due.
#[derive(Clone, Copy)]
struct Case<'a> {
    words: &'a str,
    bound: u64,
    input: &'a [u8],
    step: usize,
    reads: &'a [u64],
    writes: &'a [u64],
    reports: &'a [u64],
    status: Status,
    output: &'a [u8],
    report: &'a str,
}

// Whether the run of a case has its answer.
fn is_answered(alloc: Global, case: &Case<'_>) -> Result<bool, AllocError> {
    let input = case.input.to_vec(alloc)?;
    let mut src = MemSource::new(input, case.step.max(1), case.reads.to_vec(alloc)?);
    let mut out = MemSink::new(alloc, 100, case.writes.to_vec(alloc)?);
    let mut report = MemSink::new(alloc, 4, case.reports.to_vec(alloc)?);
    let status = run_line(
        alloc,
        case.words,
        &mut src,
        &mut out,
        &mut report,
        case.bound,
    )?;
    Ok(
        status == case.status
            && out.held() == case.output
            && report.held() == case.report.as_bytes(),
    )
}

#[test]
fn ends_fail_and_bounds_are_met(rt: HostRuntime) -> Result<(), AllocError> {
    let good = Case {
        words: CABAC,
        bound: MOST,
        input: CAVLC_PPS,
        step: 2,
        reads: &[],
        writes: &[],
        reports: &[],
        status: Status::Ok,
        output: CABAC_PPS,
        report: "ok units 1 slices 0 macroblocks 0 in 7 out 8\n",
    };
    let cases = [
        good,
        // the second read, behind four units
        Case {
            words: CAVLC,
            input: DELIMITERS,
            step: 23,
            reads: &[1],
            status: Status::ReadFault,
            output: WRITTEN,
            report: "read fault\n",
            ..good
        },
        // the first write of the stream, and of the report
        Case {
            writes: &[0],
            status: Status::WriteFault,
            output: &[],
            report: "write fault\n",
            ..good
        },
        Case {
            reports: &[0],
            status: Status::ReportFault,
            report: "",
            ..good
        },
        // the second write of the report, where a write takes four bytes
        Case {
            words: "recode --to cavlc",
            reports: &[1],
            status: Status::ReportFault,
            output: &[],
            report: "bad ",
            ..good
        },
        // one byte more than the bound, and as many
        Case {
            bound: 6,
            status: Status::TooMuch,
            output: &[],
            report: "too much\n",
            ..good
        },
        Case { bound: 7, ..good },
    ];
    for case in &cases {
        let told = case.report;
        assert!(rt; is_answered(rt.alloc(), case)?, "{told}");
    }
    Ok(())
}
