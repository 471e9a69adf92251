// A run over any ends.
use recode_run::run::run_within;
use recode_run::status::Status;
use std::alloc::{AllocError, Global};
use unit_io::{Sink, Source};

/// The bound of a run.
pub const MOST: u64 = 1 << 40;

/// The run with the words of a line.
pub fn run_line<S: Source, K: Sink, E: Sink>(
    alloc: Global,
    line: &str,
    src: &mut S,
    out: &mut K,
    report: &mut E,
    bound: u64,
) -> Result<Status, AllocError> {
    let mut words = Vec::new(alloc);
    for word in line.split(' ') {
        words.push(word.to_string(alloc)?)?;
    }
    Ok(run_within(
        alloc,
        words.as_slice(),
        src,
        out,
        report,
        &mut Vec::new(alloc),
        bound.min(MOST),
    ))
}
