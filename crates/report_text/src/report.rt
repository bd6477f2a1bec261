//! The lines of a report.
ghost use Rattle.std.specs.Prelude.{◌≡◌, ◌++◌, OnOk, OnErr, IfOk};
ghost use Rattle.report_text.specs.Lines.{bytes_text, call_text, line_text, loading_text, outcome_text, report_text, trap_text, value_text};

use crate::digits::hex_digits;
use itoa::Buffer;
use std::alloc::{AllocError, Global};
use wasm_values::{Items, NoMemory, Outcome, TrapKind, Val};

/// How the loading of a module went.
#[derive(Clone, Copy, Debug, PartialEq, Eq)]
pub enum ModuleLine {
    Accepted,
    Malformed,
    Unsupported,
    Invalid,
    Limit,
    Segment,
}

/// How a call went.
#[derive(Drop)]
pub enum CallLine {
    /// The call was made, and ended so.
    Done(Outcome),
    /// The call was sent bytes and was done, with this result, and answered these bytes.
    Sent(Option<Val>, Items<u8>),
    /// Its module was refused.
    NoModule,
    /// Its module was retired before.
    Retired,
    /// No function is exported under its name.
    NoExport,
    /// The arguments aren't of the function's types.
    BadArgs,
}

/// One line of a report.
#[derive(Drop)]
pub enum ReportLine {
    /// How the loading of the module of this name went.
    Module { name: Items<u8>, line: ModuleLine },
    /// The module of this name was retired.
    Retired { name: Items<u8> },
    /// How the call of this number went. Calls are numbered from 1.
    Call { number: u32, line: CallLine },
}

fn loading_text(line: ModuleLine) -> &'static [u8]
    ensures { result.now ≡ loading_text line }
{
    match line {
        ModuleLine::Accepted => b"ok",
        ModuleLine::Malformed => b"refused malformed",
        ModuleLine::Unsupported => b"refused unsupported",
        ModuleLine::Invalid => b"refused invalid",
        ModuleLine::Limit => b"refused limit",
        ModuleLine::Segment => b"refused segment",
    }
}

fn trap_text(kind: TrapKind) -> &'static [u8]
    ensures { result.now ≡ trap_text kind }
{
    match kind {
        TrapKind::Unreachable => b"unreachable",
        TrapKind::Memory => b"memory",
        TrapKind::Element => b"element",
        TrapKind::Uninit => b"uninit",
        TrapKind::Signature => b"signature",
        TrapKind::Divide => b"divide",
        TrapKind::Overflow => b"overflow",
        TrapKind::Exhausted => b"exhausted",
    }
}

// Appends a value with its type, in signed decimal.
fn push_value(line: &mut Vec<u8>, value: Val) -> Result<(), AllocError>
    ensures { OnOk result (line.new.items ≡ line.old.items ++ value_text value) }
{
    let mut digits = Buffer::new();
    match value {
        Val::I32(word) => {
            line.extend_from_slice(b"i32:")?;
            line.extend_from_slice(digits.format(word.cast_signed()).as_bytes())
        }
        Val::I64(long) => {
            line.extend_from_slice(b"i64:")?;
            line.extend_from_slice(digits.format(long.cast_signed()).as_bytes())
        }
    }
}

// Appends how a call that was made ended.
fn push_outcome(line: &mut Vec<u8>, outcome: Outcome) -> Result<(), AllocError>
    ensures { OnOk result (line.new.items ≡ line.old.items ++ outcome_text outcome) }
{
    match outcome {
        Outcome::Done(None) => line.extend_from_slice(b"ok"),
        Outcome::Done(Some(value)) => {
            line.extend_from_slice(b"ok ")?;
            push_value(line, value)
        }
        Outcome::Trap(kind) => {
            line.extend_from_slice(b"trap ")?;
            line.extend_from_slice(trap_text(kind))
        }
        Outcome::Fuel => line.extend_from_slice(b"fuel"),
    }
}

// Appends bytes as hex digits of lower case, or `-` for none.
fn push_bytes(alloc: Global, line: &mut Vec<u8>, bytes: &[u8]) -> Result<(), AllocError>
    ensures { OnOk result (line.new.items ≡ line.old.items ++ bytes_text bytes.now) }
{
    if bytes.is_empty() {
        return line.extend_from_slice(b"-");
    }
    let digits = hex_digits(alloc, bytes)?;
    line.extend_from_slice(&digits)
}

// Appends how a call went.
fn push_call(alloc: Global, line: &mut Vec<u8>, call: &CallLine) -> Result<(), AllocError>
    ensures { OnOk result (line.new.items ≡ line.old.items ++ call_text call.now) }
{
    match call {
        CallLine::Done(outcome) => push_outcome(line, *outcome),
        CallLine::Sent(value, bytes) => {
            push_outcome(line, Outcome::Done(*value))?;
            line.extend_from_slice(b" out:")?;
            push_bytes(alloc, line, bytes.as_slice())
        }
        CallLine::NoModule => line.extend_from_slice(b"refused module"),
        CallLine::Retired => line.extend_from_slice(b"refused retired"),
        CallLine::NoExport => line.extend_from_slice(b"refused export"),
        CallLine::BadArgs => line.extend_from_slice(b"refused args"),
    }
}

// Appends the line of the module of this name.
#[tactic(auto, unfolding(crate::specs::Lines::line_text))]
fn push_module_line(text: &mut Vec<u8>, name: &[u8], line: ModuleLine) -> Result<(), AllocError>
    ensures { OnOk result (text.new.items ≡ text.old.items ++ line_text (ReportLine.Module name.now line)) }
{
    text.extend_from_slice(b"module ")?;
    text.extend_from_slice(name)?;
    text.extend_from_slice(b" ")?;
    text.extend_from_slice(loading_text(line))?;
    text.extend_from_slice(b"\n")
}

// Appends the line of the retirement of the module of this name.
#[tactic(auto, unfolding(crate::specs::Lines::line_text))]
fn push_retire_line(text: &mut Vec<u8>, name: &[u8]) -> Result<(), AllocError>
    ensures { OnOk result (text.new.items ≡ text.old.items ++ line_text (ReportLine.Retired name.now)) }
{
    text.extend_from_slice(b"retire ")?;
    text.extend_from_slice(name)?;
    text.extend_from_slice(b" done\n")
}

// Appends the line of the `k`-th call.
#[tactic(auto, unfolding(crate::specs::Lines::line_text))]
fn push_call_line(
    alloc: Global,
    text: &mut Vec<u8>,
    k: u32,
    line: &CallLine,
) -> Result<(), AllocError>
    ensures { OnOk result (text.new.items ≡ text.old.items ++ line_text (ReportLine.Call k line.now)) }
{
    let mut number = Buffer::new();
    text.extend_from_slice(number.format(k).as_bytes())?;
    text.extend_from_slice(b" ")?;
    push_call(alloc, text, line)?;
    text.extend_from_slice(b"\n")
}

// Appends one line of a report.
fn push_line(alloc: Global, text: &mut Vec<u8>, line: &ReportLine) -> Result<(), AllocError>
    ensures { OnOk result (text.new.items ≡ text.old.items ++ line_text line.now) }
{
    match line {
        ReportLine::Module { name, line } => push_module_line(text, name.as_slice(), *line),
        ReportLine::Retired { name } => push_retire_line(text, name.as_slice()),
        ReportLine::Call { number, line } => push_call_line(alloc, text, *number, line),
    }
}

/// Appends the report's line of the module of this name. Source: `specs/Lines.antt`, `line_text`.
///
/// # Errors
///
/// `NoMemory` where memory is refused: `out` stays as it was.
pub fn write_module(
    alloc: Global,
    out: &mut Vec<u8>,
    name: &[u8],
    line: ModuleLine,
) -> Result<(), NoMemory>
    ensures line { OnOk result (out.new.items ≡ out.old.items ++ line_text (ReportLine.Module name.now line)) }
    ensures memory { OnErr result (out.new.items ≡ out.old.items) }
{
    let mut text = Vec::new(alloc);
    push_module_line(&mut text, name, line).map_err(|_| NoMemory)?;
    out.extend_from_slice(&text).map_err(|_| NoMemory)
}

/// Appends the report's line of the retirement of the module of this name. Source: `specs/Lines.antt`, `line_text`.
///
/// # Errors
///
/// `NoMemory` where memory is refused: `out` stays as it was.
pub fn write_retire(alloc: Global, out: &mut Vec<u8>, name: &[u8]) -> Result<(), NoMemory>
    ensures line { OnOk result (out.new.items ≡ out.old.items ++ line_text (ReportLine.Retired name.now)) }
    ensures memory { OnErr result (out.new.items ≡ out.old.items) }
{
    let mut text = Vec::new(alloc);
    push_retire_line(&mut text, name).map_err(|_| NoMemory)?;
    out.extend_from_slice(&text).map_err(|_| NoMemory)
}

/// Appends the report's line of the `k`-th call of the file, from 1. Source: `specs/Lines.antt`, `line_text`.
///
/// # Errors
///
/// `NoMemory` where memory is refused: `out` stays as it was.
pub fn write_call(alloc: Global, out: &mut Vec<u8>, k: u32, line: &CallLine) -> Result<(), NoMemory>
    ensures line { OnOk result (out.new.items ≡ out.old.items ++ line_text (ReportLine.Call k line.now)) }
    ensures memory { OnErr result (out.new.items ≡ out.old.items) }
{
    let mut text = Vec::new(alloc);
    push_call_line(alloc, &mut text, k, line).map_err(|_| NoMemory)?;
    out.extend_from_slice(&text).map_err(|_| NoMemory)
}

/// The text of a report: its lines one after the other. Each line is freed once it is written. Source: `specs/Lines.antt`,
/// `report_text`.
///
/// # Errors
///
/// `NoMemory` where memory is refused.
pub fn report_text(alloc: Global, lines: Vec<ReportLine>) -> Result<Vec<u8>, NoMemory>
    ensures { IfOk result (λ text. text.items ≡ report_text lines.items) }
{
    let mut text = Vec::new(alloc);
    for line in lines {
        push_line(alloc, &mut text, &line).map_err(|_| NoMemory)?;
    }
    Ok(text)
}
