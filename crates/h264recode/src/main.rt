//! `h264recode`: rewrites an H.264 byte stream (ITU-T H.264, Annex B) from standard input to standard output so that its
//! slices are in the wanted entropy layer, and reports on standard error how that ended. A slice of an MBAFF frame isn't
//! recoded yet and ends the run.
//! The top call is `recode_run::run::run`, and its contract is what the program promises.
#![tactic(auto)]

use recode_run::run::run;
use recode_run::status::Status;
use std::env;
use std::io::{self, ErrorKind};
use std::process::ExitCode;
use unit_io::{StdSink, StdSource};

/// The exit status where a word of the call isn't text, or the words can't be had for another cause than memory.
const NO_WORDS: u8 = 10;

// The words of the call, without the name of the program.
fn called_words(rt: &HostRuntime) -> io::Result<Vec<String>> {
    let mut words = Vec::new(rt.alloc());
    for word in env::args(rt)?.skip(1) {
        words.push(word)?;
    }
    Ok(words)
}

// The exit status where the words can't be had.
fn exit_without_words(error: io::Error) -> u8 {
    match error.kind() {
        ErrorKind::OutOfMemory => Status::Memory.code(),
        _ => NO_WORDS,
    }
}

fn main(rt: HostRuntime) -> ExitCode {
    let words = match called_words(&rt) {
        Ok(words) => words,
        Err(error) => return ExitCode::from(exit_without_words(error)),
    };
    let mut src = StdSource::new(rt.stdin());
    let mut out = StdSink::new(rt.stdout());
    let mut report = StdSink::new(rt.stderr());
    let mut taps = Vec::new(rt.alloc());
    let status = run(
        rt.alloc(),
        words.as_slice(),
        &mut src,
        &mut out,
        &mut report,
        &mut taps,
    );
    ExitCode::from(status.code())
}
