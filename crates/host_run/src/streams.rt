//! Reading a whole input, and writing a whole text.
ghost use Rattle.std.specs.Prelude.{◌≡◌, ◌+◌, ◌<◌, ◌≤◌, IfOk, IsErrOf, OnErr, OnOk, length};
ghost use Rattle.std.specs.Io.KnownBytes.{Appends};
ghost use Rattle.host_edge.specs.Streams.{HasCause, Rose};
ghost use Rattle.host_run.specs.Streams.{AppendsPart, ReadsInput, TakesAtMost};

use host_edge::{Failed, Sink, Source};
use request_text::MOST_BYTES;
use std::alloc::{AllocError, Global};
use thiserror::Error;
use wasm_values::NoMemory;

/// Why an input was not read.
#[derive(Clone, Copy, Debug, PartialEq, Eq, Error)]
pub(crate) enum InputFault {
    /// A read of the source failed.
    #[error("the source failed")]
    Failed,
    /// Memory ran out.
    #[error("out of memory")]
    NoMemory,
}

impl From<AllocError> for InputFault {
    ghost use Rattle.host_run.specs.declared.streams.InputFault.TheVariants.{NoMemory};

    ghost from_gives = { λ _ e. e ≡ NoMemory };

    fn from(_: AllocError) -> Self {
        InputFault::NoMemory
    }
}

impl From<NoMemory> for InputFault {
    ghost use Rattle.host_run.specs.declared.streams.InputFault.TheVariants.{NoMemory as MemoryFault};

    ghost from_gives = { λ _ e. e ≡ MemoryFault };

    fn from(_: NoMemory) -> Self {
        InputFault::NoMemory
    }
}

impl From<Failed> for InputFault {
    ghost use Rattle.host_run.specs.declared.streams.InputFault.TheVariants.{Failed as ReadFailed};

    ghost from_gives = { λ _ e. e ≡ ReadFailed };

    fn from(_: Failed) -> Self {
        InputFault::Failed
    }
}

// How many bytes one read has room for.
const PIECE: usize = 65_536;

// All bytes that the source has left, or one more than a file may have.
pub(crate) fn read_input<S: Source>(alloc: Global, source: &mut S) -> Result<Vec<u8>, InputFault>
    ensures bytes { IfOk result (λ v. ReadsInput (S.left source.old) (S.left source.new) v.items) }
    ensures at_most { TakesAtMost (S.left source.old) (S.left source.new) (MOST_BYTES + 1) }
    ensures short { OnErr result (TakesAtMost (S.left source.old) (S.left source.new) MOST_BYTES) }
    ensures later { S.faults source.old ≤ S.faults source.new }
    ensures quiet { OnOk result (S.faults source.new ≡ S.faults source.old) }
    ensures failed { IsErrOf result InputFault.Failed → Rose (S.faults source.old) (S.faults source.new) }
    ensures spared { IsErrOf result InputFault.NoMemory → S.faults source.new ≡ S.faults source.old }
{
    let mut buffer = vec![in alloc; 0; PIECE]?;
    read_pieces(alloc, source, &mut buffer)
}

// All bytes that the source has left, or one more than a file may have, in pieces no longer than a buffer. Room for a piece is
// found before it is read.
fn read_pieces<S: Source>(
    alloc: Global,
    source: &mut S,
    buffer: &mut [u8],
) -> Result<Vec<u8>, InputFault>
    requires { 0 < length buffer.old }
    ensures bytes { IfOk result (λ v. ReadsInput (S.left source.old) (S.left source.new) v.items) }
    ensures at_most { TakesAtMost (S.left source.old) (S.left source.new) (MOST_BYTES + 1) }
    ensures short { OnErr result (TakesAtMost (S.left source.old) (S.left source.new) MOST_BYTES) }
    ensures later { S.faults source.old ≤ S.faults source.new }
    ensures quiet { OnOk result (S.faults source.new ≡ S.faults source.old) }
    ensures failed { IsErrOf result InputFault.Failed → Rose (S.faults source.old) (S.faults source.new) }
    ensures spared { IsErrOf result InputFault.NoMemory → S.faults source.new ≡ S.faults source.old }
{
    let mut bytes = Vec::new(alloc);
    'pieces: while bytes.len() <= MOST_BYTES {
        let room = (MOST_BYTES + 1 - bytes.len()).min(buffer.len());
        bytes.reserve(room)?;
        let count = source.read(&mut buffer[..room])?;
        if count == 0 {
            return Ok(bytes);
        }
        bytes.extend_from_slice(&buffer[..count]).unwrap();
    }
    Ok(bytes)
}

// Writes the whole text: each write is handed all that is left of it.
pub(crate) fn write_text<K: Sink>(sink: &mut K, text: &[u8]) -> Result<(), Failed>
    ensures whole { OnOk result (Appends (K.written sink.old) (K.written sink.new) text.now) }
    ensures part { OnErr result (AppendsPart (K.written sink.old) (K.written sink.new) text.now) }
    ensures cause { HasCause (K.faults sink.old) (K.faults sink.new) result }
{
    let mut rest = text;
    while !rest.is_empty() {
        let count = sink.write(rest)?;
        rest = &rest[count..];
    }
    Ok(())
}
