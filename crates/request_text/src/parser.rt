//! A request file is read line by line.
ghost use Rattle.std.specs.Prelude.{◌≡◌, ◌↔◌, ◌<◌, ◌≤◌, [], None, length, IfOk, IfErr, IfSome, IsErrOf};
ghost use Rattle.pool_limits.specs.Plans.{plan_fault};
ghost use Rattle.request_words.specs.Words.{text_lines};
ghost use Rattle.request_text.specs.Text.{nothing_read, requests_from, requests_of, file_refusal_of};
ghost use Rattle.request_text.specs.Reading.{fault_at, Reports};

use crate::fault::LineFault;
use crate::reading::Reading;
use crate::request::{MOST_BYTES, ParseFault, Requests};
use pool_limits::PoolConfig;
use request_words::{has_printable_lines, next_line};
use std::alloc::Global;

// The fault of the line with this number.
fn at_line(line: u32, fault: LineFault) -> ParseFault
    ensures { result ≡ fault_at line fault }
{
    match fault {
        LineFault::Refused(reason) => ParseFault::TextFault { line, reason },
        LineFault::NoMemory => ParseFault::NoMemory,
    }
}

// Reads the lines of a request file.
fn read_lines(alloc: Global, config: &PoolConfig, text: &[u8]) -> Result<Reading, ParseFault>
    requires { length text.now ≤ MOST_BYTES }
    ensures read { IfOk result (λ reading. requests_from config.now 1 nothing_read (text_lines text.now) ≡ Ok reading) }
    ensures refused { IfErr result (λ fault. Reports fault (requests_from config.now 1 nothing_read (text_lines text.now))) }
{
    let mut reading = Reading::new(alloc);
    let mut number = 0u32;
    let mut left = Some(text);
    let printable = has_printable_lines(text);
    while let Some(rest) = left {
        let (line, after) = next_line(rest);
        number += 1;
        match reading.read(alloc, config, line, printable) {
            Ok(()) => left = after,
            Err(fault) => return Err(at_line(number, fault)),
        }
    }
    Ok(reading)
}

/// Reads a request file of at most `MOST_BYTES` bytes for pools of this configuration: the profile of its modules, what its
/// tenants want, and its directives in file order. Source: `specs/Text.antt`, `requests_of`.
///
/// The tenants may have what they want, where the pools have slots for any: with one worker they may have a single one of a kind.
///
/// # Errors
///
/// `TooLong` for a longer file, before any line is read; `TextFault` for the first bad line, with the first reason that
/// applies to it; `NoMemory` where memory is refused.
#[tactic(auto, unfolding(crate::specs::Text::requests_of))]
pub fn parse(alloc: Global, config: &PoolConfig, text: &[u8]) -> Result<Requests, ParseFault>
    ensures requests { IfOk result (λ requests. requests_of config.now text.now ≡ Ok requests) }
    ensures plan { IfOk result (λ requests. plan_fault config.now [] ≡ None → plan_fault config.now requests.wants ≡ None) }
    ensures refused { IfErr result (λ fault. IfSome (file_refusal_of fault) (λ refusal. requests_of config.now text.now ≡ Err refusal)) }
    ensures too_long { IsErrOf result ParseFault.TooLong ↔ (MOST_BYTES < length text.now) }
{
    if text.len() > MOST_BYTES {
        return Err(ParseFault::TooLong);
    }
    let reading = read_lines(alloc, config, text)?;
    Ok(reading.requests())
}
