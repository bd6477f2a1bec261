//! The bytes that a call answers, in a buffer that is reserved once.
ghost use Rattle.std.specs.Prelude.{◌≡◌, ◌+◌, ◌≤◌, [], ◌++◌, Ok, Err, IfOk, List, ℕ, length, nat_lt, replicate, take, if◌then◌else◌};

use std::alloc::Global;
use std::marker::Model;
use wasm_values::NoMemory;

/// How many bytes an answer may have.
pub const MOST_ANSWER: usize = 65536;

/// Why bytes were not appended: how many the answer has, and how many more they are.
#[derive(Clone, Copy, Debug, PartialEq, Eq, thiserror::Error)]
#[error("the answer has {have} bytes, and {more} more are too many")]
pub struct TooLong {
    pub have: u32,
    pub more: u64,
}

/// The bytes that a call answers, at most `MOST_ANSWER`. Its memory is reserved when it is opened.
pub struct AnswerBuf {
    room: Vec<u8>,
    used: usize,
}

impl Model for AnswerBuf {
    ghost use Rattle.std.specs.Prelude.{◌≡◌, ◌≤◌, List, ℕ, length, take};

    ghost Value = { List ℕ };

    ghost view = { λ answer. take answer.used answer.room.items };

    ghost invariant = { λ answer. (length answer.room.items ≡ 65536) × (answer.used ≤ 65536) };
}

impl Drop for AnswerBuf {
    fn drop(self) {
        let AnswerBuf { room: _, used: _ } = self;
    }
}

// Writes bytes over those from a place on.
fn put(room: &mut [u8], start: usize, piece: &[u8])
    requires { start + length piece.now ≤ length room.old }
    ensures front { take (start + length piece.now) room.new ≡ take start room.old ++ piece.now }
    ensures room { length room.new ≡ length room.old }
{
    room[start..start + piece.len()].copy_from_slice(piece);
}

// So many bytes of zero.
fn zeros(alloc: Global, count: usize) -> Result<Vec<u8>, NoMemory>
    ensures { IfOk result (λ bytes. bytes.items ≡ replicate count 0) }
{
    let bytes = vec![in alloc; 0; count].map_err(|_| NoMemory)?;
    Ok(bytes)
}

impl AnswerBuf {
    /// An answer without bytes.
    ///
    /// # Errors
    ///
    /// `NoMemory` where memory was refused.
    pub fn open(alloc: Global) -> Result<AnswerBuf, NoMemory>
        ensures { IfOk result (λ answer. answer ≡ []) }
    {
        Ok(AnswerBuf {
            room: zeros(alloc, MOST_ANSWER)?,
            used: 0,
        })
    }

    /// Appends bytes: how many there are then. Takes no memory.
    ///
    /// # Errors
    ///
    /// `TooLong` exactly where there would be more than `MOST_ANSWER`: nothing is appended then.
    pub fn append(&mut self, piece: &[u8]) -> Result<u32, TooLong>
        ensures answer { result ≡ (if nat_lt MOST_ANSWER (length self.old + length piece.now)
            then Err (record { have = length self.old; more = length piece.now })
            else Ok (length self.old + length piece.now)) }
        ensures bytes { self.new ≡ (if nat_lt MOST_ANSWER (length self.old + length piece.now) then self.old else self.old ++ piece.now) }
    {
        let more = piece.len();
        if more > MOST_ANSWER - self.used {
            return Err(TooLong {
                have: self.used as u32,
                more: more as u64,
            });
        }
        put(self.room.as_mut_slice(), self.used, piece);
        self.used += more;
        Ok(self.used as u32)
    }

    /// The bytes so far.
    pub fn bytes(&self) -> &[u8]
        ensures bytes { result.now ≡ self.now }
        ensures most { length self.now ≤ MOST_ANSWER }
    {
        &self.room[..self.used]
    }

    /// Takes all bytes away. The room stays reserved.
    pub fn clear(&mut self)
        ensures { self.new ≡ [] }
    {
        self.used = 0;
    }
}
