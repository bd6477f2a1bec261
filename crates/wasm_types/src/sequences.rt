//! Places in numbered sequences of instructions.

ghost use Rattle.std.specs.Prelude.{◌≡◌, ◌+◌, ◌<◌, ◌^◌, IfSome, slice_get, option_copied};
ghost use Rattle.wasm_types.specs.Sequences.{ops_of, code_at, named_in};

use crate::instr::{Expr, Op};

/// The instruction at a place of a sequence, if there is one.
pub fn op_at(body: &Expr, sequence: usize, place: usize) -> Option<&Op>
    ensures is { option_copied result ≡ slice_get (ops_of body.now sequence) place }
    ensures fits { IfSome result (λ _. place + 1 < 2 ^ 64) }
{
    match body.sequences.as_slice().get(sequence) {
        Some(ops) => ops.as_slice().get(place),
        None => None,
    }
}

/// The number of the sequence that one sequence names by this number: one past the last, which is empty, where the name is
/// not that of an earlier one.
pub fn named(body: &Expr, sequence: usize, inner: usize) -> usize
    ensures { code_at body.now result 0 ≡ named_in body.now sequence inner }
{
    if inner < sequence {
        inner
    } else {
        body.sequences.len()
    }
}
