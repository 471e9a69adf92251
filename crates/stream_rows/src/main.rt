//! `stream_rows`: tries whole runs over streams in memory. It reads a table from standard input, a line a run, calls `run`
//! with the words and the bytes of each, and prints what came and what was due where they differ, and then how many rows
//! there are and how many differ.
//!
//! A line is `name | words | input | pieces | status | report | output`. The input comes in pieces of so many bytes, once
//! for each number. Bytes are hexadecimal, `80*384` stands for 384 bytes 80, and `-` for none. A line `name = bytes` gives
//! bytes a name, to be used in later lines; a name that is given again goes on. A word `$name` is the text of these bytes.
//! Blank lines and those that begin with `#` say nothing.
#![tactic(auto)]

mod answer;
mod named;
mod row;

use answer::{Answer, answer_of};
use named::Named;
use row::{Row, read_row};
use std::alloc::Global;
use std::io;

// How many rows there are, and how many of them differ.
#[derive(Clone, Copy)]
struct Count {
    rows: u64,
    differ: u64,
}

fn print_answer(rt: &impl Print, alloc: Global, head: &str, answer: &Answer) -> anyhow::Result<()> {
    let status = answer.status;
    let report = String::from_utf8_lossy(alloc, answer.report.as_slice())?;
    let output = hex::encode_upper(alloc, answer.output.as_slice())?;
    println!(rt;
        "  {head}: status {status} | {} | {output}",
        report.trim_end()
    )?;
    Ok(())
}

// Whether the row has its answer in pieces of each size.
fn has_answer(rt: &impl Print, alloc: Global, row: &Row) -> anyhow::Result<bool> {
    let mut has = true;
    for pieces in row.pieces.iter() {
        let came = answer_of(alloc, row.words.as_slice(), row.input.as_slice(), *pieces)?;
        if !came.is(&row.due) {
            has = false;
            println!(rt; "{}, in pieces of {pieces}", row.name)?;
            print_answer(rt, alloc, "came", &came)?;
            print_answer(rt, alloc, "due", &row.due)?;
        }
    }
    Ok(has)
}

fn try_line(
    rt: &impl Print,
    alloc: Global,
    named: &mut Named,
    count: &mut Count,
    line: &str,
) -> anyhow::Result<()> {
    if let Some((name, bytes)) = line.split_once(" = ") {
        return named.name(alloc, name, bytes);
    }
    let row = read_row(alloc, named, line)?;
    count.rows = count.rows.saturating_add(1);
    if !has_answer(rt, alloc, &row)? {
        count.differ = count.differ.saturating_add(1);
    }
    Ok(())
}

fn main(rt: HostRuntime) -> anyhow::Result<()> {
    let alloc = rt.alloc();
    let text = io::read_to_string(alloc, rt.stdin())?;
    let mut named = Named::new(alloc);
    let mut count = Count { rows: 0, differ: 0 };
    for line in text.as_str().lines() {
        if !line.trim().is_empty() && !line.starts_with('#') {
            try_line(&rt, alloc, &mut named, &mut count, line)?;
        }
    }
    let Count { rows, differ } = count;
    println!(rt; "{rows} rows, {differ} differ")?;
    Ok(())
}
