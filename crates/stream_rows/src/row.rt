// A line of the table.
use crate::answer::Answer;
use crate::named::Named;
use anyhow::{Context, Result, bail, ensure};
use std::alloc::Global;

/// A run, and what it answers.
#[derive(Drop)]
pub struct Row {
    pub name: String,
    pub words: Vec<String>,
    pub input: Vec<u8>,

    /// How many bytes a read gives at most: the run is tried with each.
    pub pieces: Vec<usize>,

    pub due: Answer,
}

fn word_of(alloc: Global, named: &Named, word: &str) -> Result<String> {
    match word.strip_prefix('$') {
        Some(bytes) => Ok(String::from_utf8_lossy(alloc, named.bytes(alloc, bytes)?.as_slice())?),
        None => Ok(word.to_string(alloc)?),
    }
}

fn words_of(alloc: Global, named: &Named, text: &str) -> Result<Vec<String>> {
    let mut words = Vec::new(alloc);
    for word in text.split_whitespace() {
        words.push(word_of(alloc, named, word)?)?;
    }
    Ok(words)
}

fn sizes_of(alloc: Global, text: &str) -> Result<Vec<usize>> {
    let mut sizes = Vec::new(alloc);
    for size in text.split_whitespace() {
        sizes.push(size.parse::<usize>().context("no size of pieces")?)?;
    }
    ensure!(!sizes.is_empty(), "a row without a size of pieces");
    Ok(sizes)
}

/// The row that a line has.
pub fn read_row(alloc: Global, named: &Named, line: &str) -> Result<Row> {
    let mut fields = Vec::new(alloc);
    for field in line.split(" | ") {
        fields.push(field)?;
    }
    let [name, words, input, pieces, status, report, output] = fields.as_slice() else {
        bail!("a row of other than seven fields");
    };
    let mut line = report.as_bytes().to_vec(alloc)?;
    line.push(b'\n')?;
    Ok(Row {
        name: name.to_string(alloc)?,
        words: words_of(alloc, named, words)?,
        input: named.bytes(alloc, input)?,
        pieces: sizes_of(alloc, pieces)?,
        due: Answer {
            status: status.parse::<u8>().context("no status")?,
            report: line,
            output: named.bytes(alloc, output)?,
        },
    })
}
