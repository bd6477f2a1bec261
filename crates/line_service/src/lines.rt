//! Lines are answered.
ghost use Rattle.std.specs.Prelude.{◌≡◌, ◌≤◌, ◌==◌, length, position, IfSome, OnOk};
ghost use Rattle.std.specs.Io.KnownBytes.{Appends};
ghost use Rattle.pool_host.specs.Hosts.{IsHostPass};
ghost use Rattle.line_service.specs.Lines.{export_of, request_of, line_of, word_of, AreAnswered, IsAnswered, IsSaid};

use host_edge::OpenGate;
use module_store::{ModuleRef, ModuleStore, Naming};
use pool_host::{Answer, Host, HostPass, Kind};
use std::alloc::Global;
use std::io::{self, BufRead, Write};
use wasm_values::Outcome;

/// The most bytes of a request.
pub const MOST_REQUEST: usize = 65_536;

/// The fuel of each call.
pub const FUEL: u64 = 1_000_000;

// Where the first space of a line is, if it has one.
fn first_space(line: &[u8]) -> Option<usize>
    ensures place { result ≡ position (λ b. b == 32) line.now }
    ensures within { IfSome result (λ end. end ≤ length line.now) }
{
    line.iter().position(|byte| *byte == b' ')
}

// The name with which a line begins, and the request behind the first space.
fn parts(line: &[u8]) -> (&[u8], &[u8])
    ensures export { result.0.now ≡ export_of line.now }
    ensures request { result.1.now ≡ request_of line.now }
{
    let end = first_space(line).unwrap_or(line.len());
    let (export, rest) = line.split_at(end);
    if rest.is_empty() {
        (export, rest)
    } else {
        (export, &rest[1..])
    }
}

// Makes the call that a line says, with a pass of the host, or none where its request is too long.
fn ask<N: Naming>(
    host: &Host<N>,
    pass: &mut HostPass<N>,
    store: &ModuleStore<N>,
    module: &ModuleRef<N>,
    line: &[u8],
    number: u64,
) -> Option<Answer>
    requires pass { IsHostPass host.now pass.old }
    ensures own { IsHostPass host.now pass.new }
    ensures said { IsSaid N.config «module».now.tree line.now result pass.new.answer }
{
    let (export, request) = parts(line);
    if MOST_REQUEST < request.len() {
        return None;
    }
    let answer = host.send(
        pass,
        store,
        module,
        export,
        &[],
        request,
        FUEL,
        number,
        &OpenGate,
    );
    Some(answer)
}

// The word for an answer, ahead of the bytes that the call answered.
fn word(answer: Answer) -> &'static [u8]
    ensures { result.now ≡ word_of answer }
{
    match answer {
        Answer::Done(Outcome::Done(_)) => b"ok ",
        Answer::Done(Outcome::Trap(_)) => b"trap",
        Answer::Done(Outcome::Fuel) => b"out of fuel",
        Answer::NoExport => b"no such export",
        Answer::BadArgs => b"wants arguments",
        Answer::Retired => b"retired",
        Answer::Full(Kind::Instance) => b"all instances are in use",
        Answer::Full(Kind::Memory) => b"all memories are in use",
        Answer::Full(Kind::Table) => b"all tables are in use",
    }
}

// Writes what a line was answered, and a line feed.
fn write_answer<W: Write>(out: &mut W, said: Option<Answer>, bytes: &[u8]) -> io::Result<()>
    ensures { OnOk result (Appends (W.contents out.old) (W.contents out.new) (line_of said bytes.now)) }
{
    match said {
        Some(answer) => {
            out.write_all(word(answer))?;
            out.write_all(bytes)?;
        }
        None => out.write_all(b"too long")?,
    }
    out.write_all(b"\n")
}

// Answers a line.
fn answer_line<N: Naming, W: Write>(
    host: &Host<N>,
    pass: &mut HostPass<N>,
    store: &ModuleStore<N>,
    module: &ModuleRef<N>,
    line: &[u8],
    number: u64,
    out: &mut W,
) -> io::Result<()>
    requires pass { IsHostPass host.now pass.old }
    ensures own { IsHostPass host.now pass.new }
    ensures answered { OnOk result (IsAnswered N.config «module».now.tree line.now (W.contents out.old) (W.contents out.new)) }
{
    let said = ask(host, pass, store, module, line, number);
    write_answer(out, said, pass.answer())
}

/// Answers each line of the source before it reads the next.
///
/// # Errors
///
/// A fault of the source or of the writer, or want of memory for a line. What was written until then stays.
pub(crate) fn answer_lines<N: Naming, B: BufRead + Drop, W: Write>(
    alloc: Global,
    host: &Host<N>,
    pass: &mut HostPass<N>,
    store: &ModuleStore<N>,
    module: &ModuleRef<N>,
    source: B,
    out: &mut W,
) -> io::Result<()>
    requires pass { IsHostPass host.now pass.old }
    ensures own { IsHostPass host.now pass.new }
    ensures answered { OnOk result (IfSome (B.remaining source) (λ text.
        AreAnswered N.config «module».now.tree text (W.contents out.old) (W.contents out.new))) }
{
    let mut number: u64 = 0;
    for line in source.split(alloc, b'\n') {
        let line = line?;
        answer_line(host, pass, store, module, line.as_slice(), number, out)?;
        number = number.saturating_add(1);
    }
    Ok(())
}
