//! The line that tells why a request file is refused.
ghost use Rattle.std.specs.Prelude.{◌≡◌, ◌++◌, OnErr, OnOk};
ghost use Rattle.request_text.specs.Refusal.{refusal_line};
ghost use Rattle.request_text.specs.Text.{BadLine};

use crate::request::Reason;
use itoa::Buffer;
use std::alloc::{AllocError, Global};
use wasm_values::NoMemory;

// Appends the line that tells which line of a request file is refused, and why.
fn push_text_fault(text: &mut Vec<u8>, line: u32, reason: Reason) -> Result<(), AllocError>
    ensures { OnOk result (text.new.items ≡ text.old.items ++ refusal_line (BadLine line reason)) }
{
    let mut number = Buffer::new();
    text.extend_from_slice(b"line ")?;
    text.extend_from_slice(number.format(line).as_bytes())?;
    text.extend_from_slice(b": ")?;
    text.extend_from_slice(reason.text().as_bytes())?;
    text.extend_from_slice(b"\n")
}

/// Appends the line that tells which line of a request file is refused, from 1, and why. Source: `specs/Refusal.antt`,
/// `refusal_line`.
///
/// # Errors
///
/// `NoMemory` where memory is refused: `out` stays as it was.
pub fn write_text_fault(
    alloc: Global,
    out: &mut Vec<u8>,
    line: u32,
    reason: Reason,
) -> Result<(), NoMemory>
    ensures line { OnOk result (out.new.items ≡ out.old.items ++ refusal_line (BadLine line reason)) }
    ensures memory { OnErr result (out.new.items ≡ out.old.items) }
{
    let mut text = Vec::new(alloc);
    push_text_fault(&mut text, line, reason).map_err(|_| NoMemory)?;
    out.extend_from_slice(&text).map_err(|_| NoMemory)
}
