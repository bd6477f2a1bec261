//! A run over a source and a sink in memory.
use host_edge::{Gate, MemSink, MemSource};
use host_run::serve;
use std::alloc::Global;
use std::process::Abort;
use std::sync::Wait;
use std::thread::Threads;

// Of a source and of a sink: the size of its pieces, and the calls that fail.
#[derive(Clone, Copy)]
pub(crate) struct Ends<'a> {
    pub(crate) source: (usize, &'a [u64]),
    pub(crate) sink: (usize, &'a [u64]),
}

// Ends that never fail.
pub(crate) const SOUND: Ends = Ends {
    source: (4096, &[]),
    sink: (4096, &[]),
};

// A run on the words of a line, which are parted by spaces, over a file, the status that it must end with, and what it must write.
#[derive(Clone, Copy)]
pub(crate) struct Run<'a> {
    pub(crate) line: &'a str,
    pub(crate) bytes: &'a [u8],
    pub(crate) ends: Ends<'a>,
    pub(crate) status: u8,
    pub(crate) written: &'a [u8],
}

// A run over a text, whose ends are sound, that must end with status 0.
pub(crate) fn over<'a>(line: &'a str, text: &'a str, written: &'a str) -> Run<'a> {
    Run {
        line,
        bytes: text.as_bytes(),
        ends: SOUND,
        status: 0,
        written: written.as_bytes(),
    }
}

// The source of a run.
fn source<R: Abort>(rt: &R, alloc: Global, run: &Run) -> MemSource {
    let (piece, fails) = run.ends.source;
    let bytes = run.bytes.to_vec(alloc).expect(rt, "memory");
    let fails = fails.to_vec(alloc).expect(rt, "memory");
    MemSource::new(bytes, piece.max(1), fails)
}

// Its sink.
fn sink<R: Abort>(rt: &R, alloc: Global, run: &Run) -> MemSink {
    let (piece, fails) = run.ends.sink;
    let fails = fails.to_vec(alloc).expect(rt, "memory");
    MemSink::new(alloc, piece.max(1), fails)
}

fn words<'a, R: Abort>(rt: &R, alloc: Global, line: &'a str) -> Vec<&'a str> {
    let mut words = Vec::new(alloc);
    for word in line.split_whitespace() {
        words.push(word).expect(rt, "memory");
    }
    words
}

// The status of a run on the words of a line.
fn status_of<R: Abort + Threads + Wait + Sync, G: Gate>(
    rt: &R,
    alloc: Global,
    line: &str,
    source: &mut MemSource,
    sink: &mut MemSink,
    gate: &G,
) -> u8 {
    let words = words(rt, alloc, line);
    serve(rt, alloc, &words, source, sink, gate)
}

// What a run ends with and writes.
pub(crate) fn ended<R: Abort + Threads + Wait + Sync, G: Gate>(
    rt: &R,
    alloc: Global,
    run: &Run,
    gate: &G,
) -> (u8, MemSink) {
    let mut source = source(rt, alloc, run);
    let mut sink = sink(rt, alloc, run);
    let status = status_of(rt, alloc, run.line, &mut source, &mut sink, gate);
    (status, sink)
}

// A run ends and writes as it must.
pub(crate) fn check<R: Abort + Threads + Wait + Sync, G: Gate>(
    rt: &R,
    alloc: Global,
    run: &Run,
    gate: &G,
) {
    let (status, sink) = ended(rt, alloc, run, gate);
    assert!(rt; sink.bytes() == run.written, "{}", run.line);
    assert_eq!(rt; status, run.status, "{}", run.line);
}
