//! What the host reads from and writes to, with a count of faults.
ghost use Rattle.std.specs.Prelude.{ℕ, List};
ghost use Rattle.std.specs.declared.option.Option.{Option};
ghost use Rattle.std.specs.Io.{ReadsAtMost, WritesAtMost};
ghost use Rattle.std.specs.Io.KnownBytes.{ReadConsumes, WriteAppends};
ghost use Rattle.host_edge.specs.Streams.{HasCause, TakesSome};

use thiserror::Error;

/// A read that took no byte, or a write that appended none.
#[derive(Clone, Copy, Debug, PartialEq, Eq, Drop, Error)]
#[error("the stream failed")]
pub struct Failed;

/// Bytes to read.
///
/// What is left is known of a source in memory. A source that knows nothing of its bytes, as standard input,
/// shows none of them to contracts.
pub trait Source {
    /// The bytes that are left, where they are told.
    ghost left: { Self → Option (List ℕ) };

    /// How many reads have failed. It never falls, and ends at 2^64-1.
    ghost faults: { Self → ℕ };

    /// Gives the next bytes and their number: 0 only into a buffer without room, or at the end of the input.
    ///
    /// # Errors
    ///
    /// `Failed` where the read failed, which the count of faults shows. No byte was taken then.
    fn read(&mut self, buf: &mut [u8]) -> Result<usize, Failed>
        ensures bound { ReadsAtMost result buf.new }
        ensures bytes { ReadConsumes (left self.old) (left self.new) result buf.new }
        ensures cause { HasCause (faults self.old) (faults self.new) result };
}

/// Takes bytes.
pub trait Sink {
    /// The bytes written so far, where they are told.
    ghost written: { Self → Option (List ℕ) };

    /// How many writes have failed. It never falls, and ends at 2^64-1.
    ghost faults: { Self → ℕ };

    /// Appends the first bytes of a piece and gives their number, at least 1 of a piece that is not empty.
    ///
    /// # Errors
    ///
    /// `Failed` where the write failed, which the count of faults shows. No byte was appended then.
    fn write(&mut self, piece: &[u8]) -> Result<usize, Failed>
        ensures bound { WritesAtMost result piece.now }
        ensures some { TakesSome result piece.now }
        ensures bytes { WriteAppends (written self.old) (written self.new) result piece.now }
        ensures cause { HasCause (faults self.old) (faults self.new) result };
}
