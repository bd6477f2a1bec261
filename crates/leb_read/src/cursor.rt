//! A place in bytes, from which items are read.

ghost use Rattle.std.specs.Prelude.{◌≡◌, ℕ, [], ◌↔◌, IsTrue, MatchResult};
ghost use Rattle.wasm_spec.specs.Numbers.{TakesUnsigned, TakesSigned, TakesName};
ghost use Rattle.leb_read.specs.Reading.{rest, IsTail, IsMoved, IsRead, IsRefused, TakesByte, TakesSlice};

use crate::items::{read_name, read_signed, read_unsigned};
use std::marker::Model;

/// No such item stands at a place.
#[derive(Clone, Copy, Debug, PartialEq, Eq, thiserror::Error)]
#[error("malformed at byte {at}")]
pub struct Malformed {
    /// How many bytes lie before the place.
    pub at: usize,
}

/// A place in bytes, counted in bytes from their beginning. A read takes one item from there (`IsRead`), and takes no
/// memory; one that is refused leaves the place as it was (`IsRefused`).
///
/// # Errors
///
/// Each read answers `Malformed` exactly where no such item stands at the place.
#[derive(Drop)]
pub struct Cursor<'a> {
    bytes: &'a [u8],
    place: usize,
}

impl<'a> Model for Cursor<'a> {
    ghost use Rattle.std.specs.Prelude.{◌≤◌, length};
    ghost use Rattle.leb_read.specs.Reading.{CursorView};

    ghost Value = { CursorView };

    ghost view = { λ c. record { whole = c.bytes.now; place = c.place } };

    ghost invariant = { λ c. c.place ≤ length c.bytes.now };
}

impl<'a> Cursor<'a> {
    /// The beginning of these bytes.
    pub fn new(bytes: &'a [u8]) -> Self
        ensures { result ≡ record { whole = bytes.now; place = 0 } }
    {
        Cursor { bytes, place: 0 }
    }

    /// Whether no bytes are left.
    pub fn is_at_end(&self) -> bool
        ensures { IsTrue result ↔ (rest self.now ≡ []) }
    {
        self.place == self.bytes.len()
    }

    // The bytes from here on.
    fn left(&self) -> &'a [u8]
        ensures { result.now ≡ rest self.now }
    {
        &self.bytes[self.place..]
    }

    // Goes to where these bytes, which end the whole, are left.
    fn go_to(&mut self, left: &[u8])
        requires { IsTail left.now (rest self.old) }
        ensures { IsMoved self.old self.new left.now }
    {
        self.place = self.bytes.len() - left.len();
    }

    /// A byte. Source: Core Specification 1.0, section 5.2.1.
    pub fn u8(&mut self) -> Result<u8, Malformed>
        ensures { MatchResult result (IsRead TakesByte self.old self.new) (λ e. IsRefused TakesByte self.old self.new e.at) }
    {
        match self.bytes.get(self.place) {
            Some(byte) => {
                self.place += 1;
                Ok(*byte)
            }
            None => Err(Malformed { at: self.place }),
        }
    }

    /// An unsigned number of 32 bits, in at most 5 bytes. Source: section 5.2.2.
    pub fn u32(&mut self) -> Result<u32, Malformed>
        ensures { MatchResult result (IsRead (TakesUnsigned 32) self.old self.new) (λ e. IsRefused (TakesUnsigned 32) self.old self.new e.at) }
    {
        match read_unsigned(self.left(), 32) {
            Some((value, left)) => {
                self.go_to(left);
                Ok(value)
            }
            None => Err(Malformed { at: self.place }),
        }
    }

    /// A signed number of 32 bits, in at most 5 bytes. Source: section 5.2.2.
    pub fn s32(&mut self) -> Result<i32, Malformed>
        ensures { MatchResult result (IsRead (TakesSigned 32) self.old self.new) (λ e. IsRefused (TakesSigned 32) self.old self.new e.at) }
    {
        match read_signed(self.left(), 32) {
            Some((value, left)) => {
                self.go_to(left);
                Ok(value as i32)
            }
            None => Err(Malformed { at: self.place }),
        }
    }

    /// A signed number of 64 bits, in at most 10 bytes. Source: section 5.2.2.
    pub fn s64(&mut self) -> Result<i64, Malformed>
        ensures { MatchResult result (IsRead (TakesSigned 64) self.old self.new) (λ e. IsRefused (TakesSigned 64) self.old self.new e.at) }
    {
        match read_signed(self.left(), 64) {
            Some((value, left)) => {
                self.go_to(left);
                Ok(value)
            }
            None => Err(Malformed { at: self.place }),
        }
    }

    /// The next `n` bytes.
    pub fn take(&mut self, n: usize) -> Result<&'a [u8], Malformed>
        ensures { MatchResult result (λ xs. IsRead (TakesSlice n) self.old self.new xs.now) (λ e. IsRefused (TakesSlice n) self.old self.new e.at) }
    {
        let rest = &self.bytes[self.place..];
        if n > rest.len() {
            return Err(Malformed { at: self.place });
        }
        self.place += n;
        Ok(&rest[..n])
    }

    /// A name, as its UTF-8 bytes. Source: section 5.2.4.
    pub fn name(&mut self) -> Result<&'a [u8], Malformed>
        ensures { MatchResult result (λ xs. IsRead TakesName self.old self.new xs.now) (λ e. IsRefused TakesName self.old self.new e.at) }
    {
        match read_name(self.left()) {
            Some((name, left)) => {
                self.go_to(left);
                Ok(name)
            }
            None => Err(Malformed { at: self.place }),
        }
    }
}
