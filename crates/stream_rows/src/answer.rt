// What a run answers.
use anyhow::Result;
use recode_run::run::run;
use std::alloc::Global;
use unit_io::{CleanSink, CleanSource};

/// The exit status, the report with its newline, and the bytes written.
#[derive(Drop)]
pub struct Answer {
    pub status: u8,
    pub report: Vec<u8>,
    pub output: Vec<u8>,
}

impl Answer {
    pub fn is(&self, other: &Answer) -> bool {
        self.status == other.status
            && self.report.as_slice() == other.report.as_slice()
            && self.output.as_slice() == other.output.as_slice()
    }
}

/// What a run over an input answers, where this comes in pieces of so many bytes, at least one.
pub fn answer_of(alloc: Global, words: &[String], input: &[u8], pieces: usize) -> Result<Answer> {
    let mut src = CleanSource::new(input.to_vec(alloc)?, pieces.max(1));
    let mut out = CleanSink::new(alloc, 3);
    let mut report = CleanSink::new(alloc, 5);
    let status = run(
        alloc,
        words,
        &mut src,
        &mut out,
        &mut report,
        &mut Vec::new(alloc),
    );
    Ok(Answer {
        status: status.code(),
        report: report.held().to_vec(alloc)?,
        output: out.held().to_vec(alloc)?,
    })
}
