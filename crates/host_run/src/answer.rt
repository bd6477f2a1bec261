//! What a request file is answered.
ghost use Rattle.std.specs.Prelude.{[], ◌≡◌, ◌⊎◌, ◌<◌, IfOk, IsOk, IsSomeAnd, None, length, option_map};
ghost use Rattle.std.specs.Result.{result_ok};
ghost use Rattle.host_run.specs.Made.{FileWasMade, IsOfRun, asked_in};
ghost use Rattle.host_run.specs.Refusal.{told};
ghost use Rattle.host_run.specs.Serving.{IsFileAnswer, IsReported, lines_text, due_answer};
ghost use Rattle.pool_limits.specs.Plans.{plan_fault};
ghost use Rattle.request_text.specs.Refusal.{refusal_line};
ghost use Rattle.request_text.specs.Text.{BadLine, file_refusal_of};

use crate::due::{RunOutput, Text, refusal};
use crate::status::Status;
use host_edge::Gate;
use host_report::report;
use pool_limits::PoolConfig;
use report_text::{ReportLine, report_text, write_summary};
use request_text::{MOST_BYTES, ParseFault, Reason, Requests, parse, write_text_fault};
use std::alloc::Global;
use std::sync::Wait;
use std::thread::Threads;
use wasm_values::NoMemory;

// What is written where the file is too long.
const FILE_TOO_LONG: &[u8] = b"file too long\n";

// What a run writes on the lines of a report, each of which is freed once it is written.
fn lines_text(alloc: Global, lines: Vec<ReportLine>, summary: bool) -> Result<Vec<u8>, NoMemory>
    ensures { IfOk result (λ text. text.items ≡ lines_text summary lines.items) }
{
    if summary {
        let mut text = Vec::new(alloc);
        write_summary(alloc, &mut text, &lines)?;
        Ok(text)
    } else {
        report_text(alloc, lines)
    }
}

// What is asked of a run: where it writes a summary no line shows bytes, so that it keeps none of an answer.
fn asked_in(summary: bool, requests: Requests) -> Requests
    ensures asked { result ≡ asked_in summary requests }
    ensures wants { result.wants ≡ requests.wants }
{
    if !summary {
        return requests;
    }
    requests.quiet()
}

// What a request file is answered that asks for this, once its calls are made.
fn reported<R: Threads + Wait + Sync, G: Gate>(
    rt: &R,
    alloc: Global,
    config: PoolConfig,
    summary: bool,
    slice: u32,
    requests: Requests,
    gate: &G,
) -> Result<RunOutput, NoMemory>
    requires plan { (plan_fault config [] ≡ None) → plan_fault config requests.wants ≡ None }
    ensures reported { IfOk result (λ due. IsReported config summary requests (due_answer due)) }
    ensures made { IfOk result (λ due. IsOfRun config summary slice requests (due_answer due)) }
{
    let asked = asked_in(summary, requests);
    let lines = report(rt, alloc, config, slice, &asked, gate)?;
    let text = lines_text(alloc, lines, summary)?;
    Ok(RunOutput {
        status: Status::Reported.code(),
        text: Text::Made(text),
    })
}

// What a request file of these bytes is answered, once its calls are made. One that is too long is answered without memory.
pub(crate) fn answer<R: Threads + Wait + Sync, G: Gate>(
    rt: &R,
    alloc: Global,
    config: PoolConfig,
    summary: bool,
    slice: u32,
    bytes: &[u8],
    gate: &G,
) -> Result<RunOutput, NoMemory>
    ensures answer { IfOk result (λ due. IsFileAnswer config summary bytes.now (due_answer due)) }
    ensures made { IfOk result (λ due. FileWasMade config summary slice bytes.now (due_answer due)) }
    ensures status { IfOk result (λ due. (due.status ≡ 0) ⊎ (due.status ≡ 2)) }
    ensures too_long { MOST_BYTES < length bytes.now → IsOk result }
{
    match parse(alloc, &config, bytes) {
        Ok(requests) => reported(rt, alloc, config, summary, slice, requests, gate),
        Err(fault) => refused_file(alloc, fault),
    }
}

// Why a request file is refused.
#[derive(Clone, Copy)]
enum Refusal {
    TooLong,
    Line { line: u32, reason: Reason },
}

// The refusal that the parser tells of, unless it tells of want of memory.
fn refusal_of(fault: ParseFault) -> Result<Refusal, NoMemory>
    ensures { option_map told (result_ok result) ≡ file_refusal_of fault }
{
    match fault {
        ParseFault::TextFault { line, reason } => Ok(Refusal::Line { line, reason }),
        ParseFault::TooLong => Ok(Refusal::TooLong),
        ParseFault::NoMemory => Err(NoMemory),
    }
}

// What is due for a request file that is refused, unless the fault was want of memory.
fn refused_file(alloc: Global, fault: ParseFault) -> Result<RunOutput, NoMemory>
    ensures due { IfOk result (λ due. IsSomeAnd (file_refusal_of fault) (λ why. due_answer due ≡ record { status = 2; text = refusal_line why })) }
    ensures too_long { fault ≡ ParseFault.TooLong → IsOk result }
{
    match refusal_of(fault)? {
        Refusal::TooLong => Ok(refusal(FILE_TOO_LONG)),
        Refusal::Line { line, reason } => line_due(alloc, line, reason),
    }
}

// What is due for a request file of which this line is refused.
fn line_due(alloc: Global, line: u32, reason: Reason) -> Result<RunOutput, NoMemory>
    ensures { IfOk result (λ due. due_answer due ≡ record { status = 2; text = refusal_line (BadLine line reason) }) }
{
    let mut text = Vec::new(alloc);
    write_text_fault(alloc, &mut text, line, reason)?;
    Ok(RunOutput {
        status: Status::Refused.code(),
        text: Text::Made(text),
    })
}
