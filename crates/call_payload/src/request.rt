//! The bytes that a call is sent.
ghost use Rattle.std.specs.Prelude.{◌≡◌, ◌<◌, ◌≤◌, IfNone, IfOk, IfSome, take, drop, length};

use std::alloc::Global;
use std::marker::Model;
use wasm_values::{Items, NoMemory};

/// How many bytes a call may be sent.
pub const MOST_REQUEST: usize = 65536;

/// The bytes that a call is sent, at most `MOST_REQUEST`.
pub struct Payload {
    bytes: Items<u8>,
}

impl Model for Payload {
    ghost use Rattle.std.specs.Prelude.{◌≤◌, List, ℕ, length};

    ghost Value = { List ℕ };

    ghost view = { λ payload. payload.bytes };

    ghost invariant = { λ payload. length payload.bytes ≤ 65536 };
}

impl Drop for Payload {
    fn drop(self) {
        let Payload { bytes: _ } = self;
    }
}

impl Payload {
    /// These bytes, or none where they are more than `MOST_REQUEST`. Takes no memory.
    pub fn new(bytes: Items<u8>) -> Option<Payload>
        ensures payload { IfSome result (λ payload. payload ≡ bytes) }
        ensures long { IfNone result (MOST_REQUEST < length bytes) }
    {
        if bytes.len() > MOST_REQUEST {
            return None;
        }
        Some(Payload { bytes })
    }

    pub fn bytes(&self) -> &[u8]
        ensures bytes { result.now ≡ self.now }
        ensures most { length self.now ≤ MOST_REQUEST }
    {
        self.bytes.as_slice()
    }

    /// A copy of these bytes.
    ///
    /// # Errors
    ///
    /// `NoMemory` where memory was refused.
    pub fn copy(&self, alloc: Global) -> Result<Payload, NoMemory>
        ensures { IfOk result (λ payload. payload ≡ self.now) }
    {
        let bytes = self.bytes.as_slice().to_vec(alloc).map_err(|_| NoMemory)?;
        Ok(Payload {
            bytes: Items::new(bytes),
        })
    }
}

/// At most so many bytes of a request from a place on: those that there are, and none at its end or past it. Takes no memory.
pub fn read_part(request: &[u8], offset: u32, count: u32) -> &[u8]
    ensures { result.now ≡ take count (drop offset request.now) }
{
    let start = (offset as usize).min(request.len());
    let rest = &request[start..];
    &rest[..(count as usize).min(rest.len())]
}
