//! The entries that workers make of calls.
ghost use Rattle.std.specs.Prelude.{◌≡◌, ◌++◌, OnErr, OnOk};

use pool_host::Answer;
use wasm_values::{Items, NoMemory};

/// What a worker made of a call.
#[derive(Drop)]
pub struct Worked {
    /// The call's number.
    pub number: u32,
    /// How the host answered it, or none where it has no module.
    pub answer: Option<Answer>,
    /// The bytes that it answered, if its line shows them.
    pub bytes: Option<Items<u8>>,
}

/// Puts entries behind others.
///
/// # Errors
///
/// `NoMemory` where memory is refused. The others are then as they were.
pub fn put_behind(entries: &mut Vec<Worked>, mut more: Vec<Worked>) -> Result<(), NoMemory>
    ensures ok { OnOk result (entries.new.items ≡ entries.old.items ++ more.items) }
    ensures err { OnErr result (entries.new.items ≡ entries.old.items) }
{
    entries.append(&mut more).map_err(|_| NoMemory)
}
