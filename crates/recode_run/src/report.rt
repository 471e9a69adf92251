// The line that reports a run's answer.
ghost use Rattle.std.specs.Prelude.{◌≡◌, ◌≢◌, ◌≤◌, Some, IfOk, OnOk, OnErr, string_bytes};
ghost use Rattle.std.specs.Io.KnownBytes.{Appends};
ghost use Rattle.unit_io.specs.Faults.{HasSinkCause};
ghost use Rattle.recode_run.specs.Report.{case_text, why_text, line_of, TakesPart, Reports, ReportFaultRose, refused_report};

use crate::account::Account;
use crate::status::Status;
use h264_types::{Case, Why};
use std::alloc::{AllocError, Global};
use std::fmt;
use unit_io::{Sink, SinkFault, put_all};

// Why a unit has no reading, as it is printed.
#[derive(Clone, Copy)]
struct Reason(Why);

impl fmt::Display for Reason {
    ghost output = { λ reason. Some (why_text reason.0) };

    fn fmt<W: fmt::Write>(&self, f: &mut fmt::Formatter<W>) -> fmt::Result {
        match self.0 {
            Why::NoStart => f.write_str("nostart"),
            Why::Unit => f.write_str("unit"),
            Why::Kind => f.write_str("kind"),
            Why::Unbuilt => f.write_str("unbuilt"),
            Why::Escape => f.write_str("escape"),
            Why::Sps => f.write_str("sps"),
            Why::Pps => f.write_str("pps"),
            Why::Profile => f.write_str("profile"),
            Why::Limit => f.write_str("limit"),
            Why::Header => f.write_str("header"),
            Why::MissingSps(number) => write!(f, "missing sps {number}"),
            Why::MissingPps(number) => write!(f, "missing pps {number}"),
            Why::Slice => f.write_str("slice"),
        }
    }
}

fn case_name(case: Case) -> &'static str
    ensures { result.now ≡ case_text case }
{
    match case {
        Case::Level => "level",
        Case::Empty => "empty",
        Case::Number => "number",
    }
}

fn ok_line(alloc: Global, account: &Account) -> Result<String, AllocError>
    ensures { IfOk result (λ line. string_bytes line ≡ line_of Status.Ok account.now) }
{
    let Account {
        units,
        slices,
        macroblocks,
        bytes_in,
        bytes_out,
    } = *account;
    format!(in alloc;
        "ok units {units} slices {slices} macroblocks {macroblocks} in {bytes_in} out {bytes_out}\n"
    )
}

/// The line of an answer, with its newline, for a run with this account. A report fault has none.
pub fn report_line(alloc: Global, status: &Status, account: &Account) -> Result<String, AllocError>
    ensures { IfOk result (λ line. string_bytes line ≡ line_of status.now account.now) }
{
    match *status {
        Status::Ok => ok_line(alloc, account),
        Status::BadWords => format!(in alloc; "bad words\n"),
        Status::ReadFault => format!(in alloc; "read fault\n"),
        Status::WriteFault => format!(in alloc; "write fault\n"),
        Status::Stop { case, place } => {
            let name = case_name(case);
            let unit = place.unit;
            let mb = place.mb;
            format!(in alloc; "stop {name} unit {unit} mb {mb}\n")
        }
        Status::Outside { unit, why } => {
            let reason = Reason(why);
            format!(in alloc; "outside unit {unit} {reason}\n")
        }
        Status::TooMuch => format!(in alloc; "too much\n"),
        Status::Memory => format!(in alloc; "out of memory\n"),
        Status::ReportFault => Ok(String::new(alloc)),
        Status::BadTable { at } => format!(in alloc; "bad table {at}\n"),
    }
}

// Writes a line and passes it on.
fn put_line<E: Sink>(report: &mut E, line: &[u8]) -> Result<(), SinkFault>
    ensures ok { OnOk result (Appends (E.held report.old) (E.held report.new) line.now) }
    ensures err { OnErr result (TakesPart (E.held report.old) (E.held report.new) line.now) }
    ensures cause { HasSinkCause (E.faults report.old) (E.faults report.new) result }
{
    put_all(report, line)?;
    report.flush()
}

fn refused(fault: SinkFault) -> Status
    ensures { result ≡ refused_report fault }
{
    match fault {
        SinkFault::Failed => Status::ReportFault,
        SinkFault::Memory => Status::Memory,
    }
}

/// Writes the line of a run's answer and passes it on. The answer is then that of the run, or a report fault in its
/// place, or want of memory, whose line needs none.
pub fn write_report<E: Sink>(
    alloc: Global,
    status: Status,
    account: &Account,
    report: &mut E,
) -> Status
    requires { status ≢ Status.ReportFault }
    ensures line { Reports (E.held report.old) (E.held report.new) status account.now result }
    ensures cause { ReportFaultRose (E.faults report.old) (E.faults report.new) result }
    ensures later { E.faults report.old ≤ E.faults report.new }
{
    match report_line(alloc, &status, account) {
        Ok(line) => match put_line(report, line.as_bytes()) {
            Ok(()) => status,
            Err(fault) => refused(fault),
        },
        Err(_) => match put_line(report, b"out of memory\n") {
            Ok(()) => Status::Memory,
            Err(fault) => refused(fault),
        },
    }
}
