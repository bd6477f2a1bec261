//! What a line asks of a module.
ghost use Rattle.std.specs.Prelude.{◌≡◌, ◌≤◌, IfOk, length};
ghost use Rattle.request_calls.specs.Invocations.{sent_by, shown_of, Asks};

use crate::short_lists::{Arguments, ExportName};
use call_payload::{Call, MOST_REQUEST, Payload};
use std::alloc::Global;
use wasm_values::{Items, NoMemory};

/// A call of an export, on this fuel, in instructions, with these arguments.
pub struct Invocation {
    pub export: ExportName,
    pub fuel: u32,
    /// The bytes that a `send` line sends. A `call` line sends none.
    pub request: Option<Payload>,
    /// Whether the line of the report shows the bytes that it answers.
    pub shows: bool,
    pub args: Arguments,
}

impl Drop for Invocation {
    fn drop(self) {
        let Invocation {
            export: _,
            fuel: _,
            request: _,
            shows: _,
            args: _,
        } = self;
    }
}

// A copy of a request, if there is one.
fn copied(alloc: Global, request: &Option<Payload>) -> Result<Option<Payload>, NoMemory>
    ensures { IfOk result (λ copy. copy ≡ request.now) }
{
    match request {
        Some(request) => Ok(Some(request.copy(alloc)?)),
        None => Ok(None),
    }
}

impl Invocation {
    /// What is asked of the module. Takes no memory.
    pub fn call(&self) -> Call<'_>
        ensures { Asks self.now result }
    {
        Call {
            export: self.export.as_slice(),
            args: self.args.as_slice(),
            request: self.sent(),
            fuel: self.fuel as u64,
        }
    }

    /// The bytes that the call is sent. Takes no memory.
    pub fn sent(&self) -> &[u8]
        ensures bytes { result.now ≡ sent_by self.now }
        ensures most { length (sent_by self.now) ≤ MOST_REQUEST }
    {
        match &self.request {
            Some(request) => request.bytes(),
            None => &[],
        }
    }

    /// What the line shows of the bytes that the call answered: a copy of them, or nothing.
    ///
    /// # Errors
    ///
    /// `NoMemory` where memory is refused.
    pub fn shown(&self, alloc: Global, bytes: &[u8]) -> Result<Option<Items<u8>>, NoMemory>
        ensures { IfOk result (λ shown. shown ≡ shown_of self.now bytes.now) }
    {
        if !self.shows {
            return Ok(None);
        }
        let copy = bytes.to_vec(alloc).map_err(|_| NoMemory)?;
        Ok(Some(Items::new(copy)))
    }

    /// A copy of what is asked.
    ///
    /// # Errors
    ///
    /// `NoMemory` where memory is refused.
    pub fn copy(&self, alloc: Global) -> Result<Invocation, NoMemory>
        ensures { IfOk result (λ copy. copy ≡ self.now) }
    {
        let export = ExportName::from_slice(alloc, self.export.as_slice()).map_err(|_| NoMemory)?;
        let args = self.args.copy(alloc).map_err(|_| NoMemory)?;
        Ok(Invocation {
            export,
            fuel: self.fuel,
            request: copied(alloc, &self.request)?,
            shows: self.shows,
            args,
        })
    }
}
