//! The summary of a report: how many of its lines tell of each end.
ghost use Rattle.std.specs.Prelude.{◌≡◌, ◌++◌, OnErr, OnOk};
ghost use Rattle.report_text.specs.Summary.{call_label, count_line, count_of, counts_under, module_label, summary_text};

use crate::report::{CallLine, ModuleLine, ReportLine};
use itoa::Buffer;
use std::alloc::{AllocError, Global};
use wasm_values::{NoMemory, Outcome};

// The label under which the line of a module counts.
fn module_label(line: ModuleLine) -> &'static [u8]
    ensures { result.now ≡ module_label line }
{
    match line {
        ModuleLine::Accepted => b"modules ok",
        ModuleLine::Malformed
        | ModuleLine::Unsupported
        | ModuleLine::Invalid
        | ModuleLine::Limit
        | ModuleLine::Segment => b"modules refused",
    }
}

// The label under which the line of a call counts.
fn call_label(line: &CallLine) -> &'static [u8]
    ensures { result.now ≡ call_label line.now }
{
    match line {
        CallLine::Done(Outcome::Done(_)) | CallLine::Sent(..) => b"calls ok",
        CallLine::Done(Outcome::Trap(_)) => b"calls trap",
        CallLine::Done(Outcome::Fuel) => b"calls fuel",
        CallLine::NoModule | CallLine::Retired | CallLine::NoExport | CallLine::BadArgs => {
            b"calls refused"
        }
    }
}

// Whether a line of a report counts under a label.
fn counts_under(label: &[u8], line: &ReportLine) -> bool
    ensures { result ≡ counts_under label.now line.now }
{
    match line {
        ReportLine::Module { line, .. } => module_label(*line) == label,
        ReportLine::Retired { .. } => false,
        ReportLine::Call { line, .. } => call_label(line) == label,
    }
}

// How many of the lines count under a label.
fn count_of(lines: &[ReportLine], label: &[u8]) -> usize
    ensures { result ≡ count_of lines.now label.now }
{
    lines
        .iter()
        .filter(|line| counts_under(label, line))
        .count()
}

// Appends a label and how many of the lines count under it.
#[tactic(auto, unfolding(crate::specs::Summary::count_line))]
fn push_count(text: &mut Vec<u8>, lines: &[ReportLine], label: &[u8]) -> Result<(), AllocError>
    ensures { OnOk result (text.new.items ≡ text.old.items ++ count_line lines.now label.now) }
{
    let mut digits = Buffer::new();
    let count = count_of(lines, label);
    text.extend_from_slice(label)?;
    text.extend_from_slice(b" ")?;
    text.extend_from_slice(digits.format(count).as_bytes())?;
    text.extend_from_slice(b"\n")
}

// Appends the summary of a report of these lines.
fn push_summary(text: &mut Vec<u8>, lines: &[ReportLine]) -> Result<(), AllocError>
    ensures { OnOk result (text.new.items ≡ text.old.items ++ summary_text lines.now) }
{
    push_count(text, lines, b"modules ok")?;
    push_count(text, lines, b"modules refused")?;
    push_count(text, lines, b"calls ok")?;
    push_count(text, lines, b"calls trap")?;
    push_count(text, lines, b"calls fuel")?;
    push_count(text, lines, b"calls refused")
}

/// Appends the summary of a report of these lines: six lines, each a label, a space and how many lines count under it.
/// Source: `specs/Summary.antt`, `summary_text`.
///
/// # Errors
///
/// `NoMemory` where memory is refused: `out` stays as it was.
pub fn write_summary(alloc: Global, out: &mut Vec<u8>, lines: &[ReportLine]) -> Result<(), NoMemory>
    ensures summary { OnOk result (out.new.items ≡ out.old.items ++ summary_text lines.now) }
    ensures memory { OnErr result (out.new.items ≡ out.old.items) }
{
    let mut text = Vec::new(alloc);
    push_summary(&mut text, lines).map_err(|_| NoMemory)?;
    out.extend_from_slice(&text).map_err(|_| NoMemory)
}
