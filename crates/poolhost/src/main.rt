//! The program `poolhost`: the host over the standard streams and the words of the process.
#![tactic(auto)]

ghost use Rattle.std.specs.Prelude.{◌≡◌, ◌≢◌, ◌⊎◌, IfErr, IfOk, IfSome, OnErr, map, string_bytes};
ghost use Rattle.std.specs.IoError.{error_kind};
ghost use Rattle.host_edge.specs.Streams.{Rose};
ghost use Rattle.host_run.specs.Serving.{Delivers, IsDue, IsStatus, refused_words, texts_of};

use host_edge::{OpenGate, Sink, Source, StdSink, StdSource};
use host_run::{Status, refuse_words, serve};
use std::alloc::{AllocError, Global};
use std::env;
use std::io::{self, ErrorKind};
use std::process::ExitCode;
use std::sync::Wait;
use std::thread::Threads;

fn main(rt: HostRuntime) -> ExitCode {
    let mut source = StdSource::new(rt.reader());
    let mut sink = StdSink::new(io::writer(&rt));
    ExitCode::from(status_of(&rt, rt.alloc(), args(&rt), &mut source, &mut sink))
}

// The words of the process, where each of them is text.
fn args(rt: &HostRuntime) -> io::Result<Vec<String>> {
    Ok(env::args(rt)?.collect(rt.alloc())?)
}

// The exit status of the program, for the words of the process or for what kept them from being collected: the host's where
// they are text, 5 where memory was refused, and else that of words which are refused.
fn status_of<S: Source, K: Sink>(
    rt: &(impl Threads + Wait + Sync),
    alloc: Global,
    args: io::Result<Vec<String>>,
    source: &mut S,
    sink: &mut K,
) -> u8
    ensures status { IsStatus result }
    ensures due { IfOk args (λ texts. IfSome (S.left source.old) (λ bytes.
        Delivers (IsDue (map string_bytes texts.items) bytes) (K.written sink.old) (K.written sink.new) result)) }
    ensures source_failed { result ≡ 3 → Rose (S.faults source.old) (S.faults source.new) }
    ensures sink_failed { result ≡ 4 → Rose (K.faults sink.old) (K.faults sink.new) }

    // words that aren't text
    ensures refused { IfErr args (λ error. error_kind error ≢ ErrorKind.OutOfMemory
        → Delivers (λ due. due ≡ refused_words) (K.written sink.old) (K.written sink.new) result) }
    ensures refused_status { IfErr args (λ error. error_kind error ≢ ErrorKind.OutOfMemory → (result ≡ 2) ⊎ (result ≡ 4)) }
    ensures no_memory { IfErr args (λ error. error_kind error ≡ ErrorKind.OutOfMemory → result ≡ 5) }
    ensures unwritten { result ≡ 5 → K.written sink.new ≡ K.written sink.old }
    ensures unread { IfErr args (λ _. source.new ≡ source.old) }
{
    match args {
        Ok(args) => serve_args(rt, alloc, args.as_slice(), source, sink).unwrap_or(
            Status::NoMemory.code(),
        ),
        Err(error) if error.kind() == ErrorKind::OutOfMemory => Status::NoMemory.code(),
        Err(_) => refuse_words(sink),
    }
}

// The words of the process as the host reads them.
fn words_of(alloc: Global, args: &[String]) -> Result<Vec<&str>, AllocError>
    ensures { IfOk result (λ words. texts_of words.items ≡ map string_bytes args.now) }
{
    let mut words = Vec::new(alloc);
    for arg in args {
        words.push(arg.as_str())?;
    }
    Ok(words)
}

// Runs the host on the words of the process. Memory may run out before.
fn serve_args<S: Source, K: Sink>(
    rt: &(impl Threads + Wait + Sync),
    alloc: Global,
    args: &[String],
    source: &mut S,
    sink: &mut K,
) -> Result<u8, AllocError>
    ensures status { IfOk result IsStatus }
    ensures due { IfOk result (λ status. IfSome (S.left source.old) (λ bytes.
        Delivers (IsDue (map string_bytes args.now) bytes) (K.written sink.old) (K.written sink.new) status)) }
    ensures source_failed { IfOk result (λ status. status ≡ 3 → Rose (S.faults source.old) (S.faults source.new)) }
    ensures sink_failed { IfOk result (λ status. status ≡ 4 → Rose (K.faults sink.old) (K.faults sink.new)) }
    ensures unwritten { IfOk result (λ status. status ≡ 5 → K.written sink.new ≡ K.written sink.old) }
    ensures no_memory { OnErr result (K.written sink.new ≡ K.written sink.old) }
{
    let words = words_of(alloc, args)?;
    Ok(serve(rt, alloc, words.as_slice(), source, sink, &OpenGate))
}
