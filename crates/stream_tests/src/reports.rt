// The lines and the numbers of all answers.
use h264_types::{Case, Place, Why};
use recode_run::account::Account;
use recode_run::report::report_line;
use recode_run::status::Status;
use std::test::Fail;
use stream_taps::Event;

// The account of a delimiter behind a start code of three bytes.
fn account_of_a_delimiter() -> Account {
    let mut account = Account::new();
    account.read(5);
    account.note(Event {
        kind: 9,
        macroblocks: 0,
        bytes_in: 2,
        bytes_out: 6,
    });
    account
}

/// Each way that a run ends, its line and its number.
const ROWS: [(Status, &str, u8); 12] = [
    (
        Status::Ok,
        "ok units 1 slices 0 macroblocks 0 in 5 out 6\n",
        0,
    ),
    (Status::BadWords, "bad words\n", 1),
    (Status::ReadFault, "read fault\n", 2),
    (Status::WriteFault, "write fault\n", 3),
    (
        Status::Stop {
            case: Case::Empty,
            place: Place { unit: 2, mb: 7 },
        },
        "stop empty unit 2 mb 7\n",
        4,
    ),
    (
        Status::Stop {
            case: Case::Number,
            place: Place { unit: 1, mb: 0 },
        },
        "stop number unit 1 mb 0\n",
        4,
    ),
    (
        Status::Outside {
            unit: 0,
            why: Why::NoStart,
        },
        "outside unit 0 nostart\n",
        5,
    ),
    (
        Status::Outside {
            unit: 1,
            why: Why::MissingSps(31),
        },
        "outside unit 1 missing sps 31\n",
        5,
    ),
    (Status::TooMuch, "too much\n", 6),
    (Status::Memory, "out of memory\n", 7),
    (Status::ReportFault, "", 8),
    (Status::BadTable { at: 3679 }, "bad table 3679\n", 9),
];

#[test]
fn each_answer_has_its_line(rt: HostRuntime) -> Result<(), Fail> {
    let account = account_of_a_delimiter();
    for (status, line, code) in &ROWS {
        let made = report_line(rt.alloc(), status, &account)?;
        assert!(rt; made.as_str() == *line && status.code() == *code, "{line}");
    }
    Ok(())
}
