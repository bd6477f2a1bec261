//! Bytes that are zero at first, and are written as far as they are used.
ghost use Rattle.std.specs.Prelude.{◌≡◌, ◌+◌, ◌-◌, ◌<◌, ◌≤◌, ◌++◌, drop, IfOk, length, replicate, slice_index, take, vec_capacity};
ghost use Rattle.wasm_spec.specs.Store.{written};

use std::alloc::{AllocError, Global};
use std::marker::Model;

/// So many bytes, all zero at first. Their room is reserved once, and only what was made accessible of it was ever written: from there on
/// all are zero. Contracts see all bytes, and how many are accessible.
pub struct ZeroedBytes {
    accessible: Vec<u8>,
    count: usize,
}

impl Drop for ZeroedBytes {
    fn drop(self) {
        let ZeroedBytes {
            accessible: _,
            count: _,
        } = self;
    }
}

impl Model for ZeroedBytes {
    ghost use Rattle.std.specs.Prelude.{◌-◌, ◌≤◌, ◌++◌, length, replicate, vec_capacity};
    ghost use Rattle.linear_memory.specs.Zeroed.{BytesView};

    ghost Value = { BytesView };

    ghost view = { λ b. record { items = b.accessible.items ++ replicate (b.count - length b.accessible.items) 0; accessible = length b.accessible.items } };

    ghost invariant = { λ b. (length b.accessible.items ≤ b.count) × (b.count ≤ vec_capacity b.accessible) };
}

// Appends zeros up to so many bytes, for which there is room.
fn reach(bytes: &mut Vec<u8>, count: usize)
    requires more { length bytes.old.items ≤ count }
    requires room { count ≤ vec_capacity bytes.old }
    ensures items { bytes.new.items ≡ bytes.old.items ++ replicate (count - length bytes.old.items) 0 }
    ensures capacity { vec_capacity bytes.old ≤ vec_capacity bytes.new }
{
    bytes.resize(count, 0).unwrap();
}

// Writes bytes over those from a place on.
fn put(bytes: &mut Vec<u8>, start: usize, piece: &[u8])
    requires { start + length piece.now ≤ length bytes.old.items }
    ensures items { bytes.new.items ≡ written bytes.old.items start piece.now }
    ensures capacity { vec_capacity bytes.new ≡ vec_capacity bytes.old }
{
    bytes[start..start + piece.len()].copy_from_slice(piece);
}

// So many bytes from a place on.
fn part_of(bytes: &[u8], from: usize, count: usize) -> &[u8]
    requires { from + count ≤ length bytes.now }
    ensures { result.now ≡ take count (drop from bytes.now) }
{
    &bytes[from..from + count]
}

// Writes so many bytes from one place on over those from another on, as they were before. Onto themselves they are not written.
fn copy_over(bytes: &mut Vec<u8>, to: usize, from: usize, count: usize)
    requires to { to + count ≤ length bytes.old.items }
    requires from { from + count ≤ length bytes.old.items }
    ensures items { bytes.new.items ≡ written bytes.old.items to (take count (drop from bytes.old.items)) }
    ensures capacity { vec_capacity bytes.new ≡ vec_capacity bytes.old }
{
    if to == from {
        return;
    }
    bytes.copy_within(from..from + count, to);
}

// Writes a byte so many times over those from a place on.
fn fill_over(bytes: &mut Vec<u8>, to: usize, value: u8, count: usize)
    requires { to + count ≤ length bytes.old.items }
    ensures items { bytes.new.items ≡ written bytes.old.items to (replicate count value) }
    ensures capacity { vec_capacity bytes.new ≡ vec_capacity bytes.old }
{
    bytes[to..to + count].fill(value);
}

impl ZeroedBytes {
    /// So many zeros, of which none are accessible.
    ///
    /// # Errors
    ///
    /// `AllocError` where memory was refused.
    pub fn zeros(alloc: Global, count: usize) -> Result<ZeroedBytes, AllocError>
        ensures items { IfOk result (λ bytes. bytes.items ≡ replicate count 0) }
        ensures accessible { IfOk result (λ bytes. bytes.accessible ≡ 0) }
    {
        let accessible = Vec::with_capacity(alloc, count)?;
        Ok(ZeroedBytes { accessible, count })
    }

    /// How many bytes there are.
    pub fn len(&self) -> usize
        ensures { result ≡ length self.now.items }
    {
        self.count
    }

    /// Makes the first so many bytes accessible. Takes no memory: they are written into the room that there is.
    pub fn make_accessible(&mut self, count: usize)
        requires { count ≤ length self.old.items }
        ensures items { self.new.items ≡ self.old.items }
        ensures accessible { count ≤ self.new.accessible }
        ensures more { self.old.accessible ≤ self.new.accessible }
    {
        if count <= self.accessible.len() {
            return;
        }
        reach(&mut self.accessible, count);
    }

    /// The byte at a place.
    #[inline(always)]
    pub fn at(&self, place: usize) -> u8
        requires { place < self.now.accessible }
        ensures { result ≡ slice_index self.now.items place }
    {
        self.accessible[place]
    }

    /// So many bytes from a place on.
    pub fn part(&self, from: usize, count: usize) -> &[u8]
        requires { from + count ≤ self.now.accessible }
        ensures { result.now ≡ take count (drop from self.now.items) }
    {
        part_of(&self.accessible, from, count)
    }

    /// Writes bytes over those from a place on.
    #[inline(always)]
    pub fn put(&mut self, start: usize, piece: &[u8])
        requires { start + length piece.now ≤ self.old.accessible }
        ensures items { self.new.items ≡ written self.old.items start piece.now }
        ensures accessible { self.new.accessible ≡ self.old.accessible }
    {
        put(&mut self.accessible, start, piece);
    }

    /// Writes so many bytes from one place on over those from another on, as they were before.
    pub fn copy(&mut self, to: usize, from: usize, count: usize)
        requires to { to + count ≤ self.old.accessible }
        requires from { from + count ≤ self.old.accessible }
        ensures items { self.new.items ≡ written self.old.items to (take count (drop from self.old.items)) }
        ensures accessible { self.new.accessible ≡ self.old.accessible }
    {
        copy_over(&mut self.accessible, to, from, count);
    }

    /// Writes a byte so many times over those from a place on.
    pub fn fill(&mut self, to: usize, value: u8, count: usize)
        requires { to + count ≤ self.old.accessible }
        ensures items { self.new.items ≡ written self.old.items to (replicate count value) }
        ensures accessible { self.new.accessible ≡ self.old.accessible }
    {
        fill_over(&mut self.accessible, to, value, count);
    }
}
