//! The runs of a case are made.
use crate::cases::Case;
use anyhow::Error;
use host_edge::{MemSink, MemSource, OpenGate};
use host_run::serve;
use std::alloc::{AllocError, Global};
use std::sync::Wait;
use std::thread::Threads;
use std::{io, str};

// The most bytes that a source gives and a sink takes at once.
const PIECE: usize = 4096;

/// How many cases there were, how many runs, and how many of these were wrong.
#[derive(Clone, Copy, Default)]
pub(crate) struct Tally {
    pub(crate) cases: u64,
    pub(crate) runs: u64,
    pub(crate) wrong: u64,
}

// What a run on these words over a file ends with and writes.
fn run<R: Threads + Wait + Sync>(
    rt: &R,
    alloc: Global,
    words: &str,
    file: &[u8],
) -> Result<(u8, MemSink), AllocError> {
    let words: Vec<&str> = words.split_whitespace().collect(alloc)?;
    let mut source = MemSource::new(file.to_vec(alloc)?, PIECE, Vec::new(alloc));
    let mut sink = MemSink::new(alloc, PIECE, Vec::new(alloc));
    let status = serve(rt, alloc, &words, &mut source, &mut sink, &OpenGate);
    Ok((status, sink))
}

// The first line of a text that another one has not at its place.
fn line_apart<'a>(text: &'a str, other: &str) -> &'a str {
    let mut lines = other.split('\n');
    for line in text.split('\n') {
        if lines.next() != Some(line) {
            return line;
        }
    }
    "nothing more"
}

// Prints a run that was wrong, and where.
fn tell<R: Print>(rt: &R, case: &Case, words: &str, status: u8, written: &[u8]) -> io::Result<()> {
    let due = case.report.as_str();
    let written = str::from_utf8(written).unwrap_or("no text");
    println!(rt; "case {}", case.title)?;
    println!(rt; "$ {words}")?;
    println!(rt; "status {status}, must be {}", case.status.unwrap_or(0))?;
    if written != due {
        println!(rt; "wrote, where it differs: {}", line_apart(written, due))?;
        println!(rt; "must write: {}", line_apart(due, written))?;
    }
    Ok(())
}

// The file of a case, if other words write it.
fn made<R: Threads + Wait + Sync>(
    rt: &R,
    alloc: Global,
    case: &Case,
) -> Result<Option<MemSink>, AllocError> {
    match case.maker {
        Some(words) => {
            let (_status, sink) = run(rt, alloc, words, b"")?;
            Ok(Some(sink))
        }
        None => Ok(None),
    }
}

/// Makes the runs of a case, and prints those that are wrong.
pub(crate) fn check<R: Print + Threads + Wait + Sync>(
    rt: &R,
    alloc: Global,
    case: &Case,
    tally: &mut Tally,
) -> Result<(), Error> {
    let made = made(rt, alloc, case)?;
    let file = match &made {
        Some(sink) => sink.bytes(),
        None => case.file.as_bytes(),
    };
    for words in &case.runs {
        let (status, sink) = run(rt, alloc, *words, file)?;
        if Some(status) != case.status || sink.bytes() != case.report.as_bytes() {
            tally.wrong = tally.wrong.saturating_add(1);
            tell(rt, case, *words, status, sink.bytes())?;
        }
        tally.runs = tally.runs.saturating_add(1);
    }
    tally.cases = tally.cases.saturating_add(1);
    Ok(())
}
