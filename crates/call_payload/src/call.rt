//! What is asked of a module.
ghost use Rattle.std.specs.Prelude.{◌≤◌, length};

use wasm_values::Val;

/// What is asked of a module: an export with its arguments, a request that it may read, and the fuel, one unit for each plain
/// instruction.
#[derive(Clone, Copy, Debug)]
pub struct Call<'a> {
    /// The export's name.
    pub export: &'a [u8],
    pub args: &'a [Val],
    /// At most [`MOST_REQUEST`](crate::MOST_REQUEST) bytes.
    pub request: &'a [u8],
    pub fuel: u64,
    ghost few: { length request.now ≤ 65536 },
}
