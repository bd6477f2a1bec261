//! What a run reads and does not change.
ghost use Rattle.std.specs.Prelude.{◌≤◌, length};

use wasm_types::{Module, RunLimits};
use wasm_validate::Valid;

/// What a run reads and does not change: the module, the limits of its pages and its depth, the request of at most 65,536 bytes, and
/// the table, in which an entry is a function's number or none.
#[derive(Clone, Copy)]
pub struct RunInputs<'a> {
    pub valid: &'a Valid,
    pub limits: RunLimits,
    pub request: &'a [u8],
    pub table: &'a [Option<u32>],
    ghost few: { length request.now ≤ 65536 },
}

/// What a run reads and does not change, as its loop reads it: the module in place of the valid module.
#[derive(Clone, Copy)]
pub(crate) struct Inputs<'a> {
    pub m: &'a Module,
    pub limits: RunLimits,
    pub request: &'a [u8],
    pub table: &'a [Option<u32>],
    ghost few: { length request.now ≤ 65536 },
}
