//! A linear memory in bytes for its largest size.
ghost use Rattle.std.specs.Prelude.{◌≡◌, ℕ, ◌+◌, ◌-◌, ◌*◌, ◌<◌, ◌≤◌, ◌/◌, ◌^◌, ◌&&◌, drop, false, Option, None, Some, IfOk, if◌then◌else◌, nat_le, nat_lt, not, length, replicate, set, take, true};
ghost use Rattle.std.specs.Int.{from_le_bytes, w8, w16, w32, w64};
ghost use Rattle.wasm_spec.specs.Store.{written, loaded};
ghost use Rattle.linear_memory.specs.Bytes.{Grows, IsMemory, IsZeroed, shown};
ghost use Rattle.memory_blocks.specs.Blocks.{block_size};
ghost use Rattle.linear_memory.specs.Marks.{MarksPart, with_part};

use crate::zeroed_bytes::ZeroedBytes;
use memory_blocks::Marks;
use std::alloc::{AllocError, Global};
use wasm_types::PAGE_SIZE;
use wasm_values::NoMemory;

/// How many bytes a block has, for which one mark is kept.
pub const BLOCK_SIZE: u64 = 4096;

/// A memory: bytes to its largest size, of which those past its size are zero and those up to it accessible, its size in pages, and for
/// each block of bytes whether it was written to.
pub struct Memory {
    pub bytes: ZeroedBytes,
    pub pages: u32,
    pub marks: Marks,
}

impl Drop for Memory {
    fn drop(self) {
        let Memory {
            bytes: _,
            pages: _,
            marks: _,
        } = self;
    }
}

// Marks two blocks.
#[inline(always)]
fn mark(marks: &mut Marks, first: u64, last: u64)
    requires first { first < length marks.old.items }
    requires last { last < length marks.old.items }
    ensures { marks.new.items ≡ set (set marks.old.items first true) last true }
{
    marks.mark_both(first as usize, last as usize);
}

// Marks so many blocks from one on.
fn mark_row(marks: &mut Marks, first: usize, count: usize)
    requires { first + count ≤ length marks.old.items }
    ensures { marks.new.items ≡ written marks.old.items first (replicate count true) }
{
    marks.mark_row(first, count);
}

// Marks the blocks that so many bytes from an address on lie in.
fn mark_touched(marks: &mut Marks, at: u64, count: u64)
    requires fits { at + count ≤ length marks.old.items * block_size }
    requires small { at + count < 2 ^ 64 }
    ensures { marks.new.items ≡ with_part marks.old.items at count }
{
    if count == 0 {
        return;
    }
    let first = at / BLOCK_SIZE;
    let last = (at + (count - 1)) / BLOCK_SIZE;
    mark_row(marks, first as usize, (last + 1 - first) as usize);
}

// So many bytes of zero, and so many marks that are not set.
fn zeros(alloc: Global, bytes: usize, marks: usize) -> Result<(ZeroedBytes, Marks), AllocError>
    ensures { IfOk result (λ pair. (pair.0.items ≡ replicate bytes 0) × (pair.1.items ≡ replicate marks false)) }
{
    let bytes = ZeroedBytes::zeros(alloc, bytes)?;
    Ok((bytes, Marks::unmarked(alloc, marks)?))
}

impl Memory {
    /// A memory of size 0 with bytes for so many pages, in which all is zero and no block is marked.
    ///
    /// # Errors
    ///
    /// `NoMemory` where memory was refused.
    pub fn zeroed(alloc: Global, pages: u32) -> Result<Memory, NoMemory>
        ensures zeroed { IfOk result (λ memory. IsZeroed pages memory) }
        ensures memory { IfOk result (λ memory. IsMemory pages memory) }
    {
        let count = u64::from(pages) * PAGE_SIZE;
        match zeros(alloc, count as usize, (count / BLOCK_SIZE) as usize) {
            Ok((bytes, marks)) => Ok(Memory {
                bytes,
                pages: 0,
                marks,
            }),
            Err(_) => Err(NoMemory),
        }
    }

    /// Writes bytes at an address, if they lie within the size, and marks the blocks that they lie in. Says whether they do.
    pub fn write(&mut self, at: u64, piece: &[u8]) -> bool
        requires memory { (most : ℕ) × IsMemory most self.old }
        requires some { 0 < length piece.now }
        requires short { length piece.now ≤ block_size }
        ensures fits { result ≡ not (nat_lt (length (shown self.old)) (at + length piece.now)) }
        ensures after { shown self.new ≡ (if result then written (shown self.old) at piece.now else shown self.old) }
        ensures memory { (most : ℕ) → IsMemory most self.old → IsMemory most self.new }
        ensures marks { MarksPart self.old self.new at (if result then length piece.now else 0) }
    {
        let size = u64::from(self.pages) * PAGE_SIZE;
        let count = piece.len() as u64;
        if size < count || at > size - count {
            return false;
        }
        self.bytes.put(at as usize, piece);
        mark(
            &mut self.marks,
            at / BLOCK_SIZE,
            (at + count - 1) / BLOCK_SIZE,
        );
        true
    }

    /// Copies so many bytes from one address to another, if both parts lie within the size, and marks the blocks that they come
    /// to. They are read as they were before, so the parts may overlap. Says whether both lie within it.
    pub fn copy(&mut self, to: u64, from: u64, count: u64) -> bool
        requires { (most : ℕ) × IsMemory most self.old }
        ensures fits { result ≡ nat_le (to + count) (length (shown self.old)) && nat_le (from + count) (length (shown self.old)) }
        ensures after { shown self.new ≡ (if result then written (shown self.old) to (take count (drop from (shown self.old))) else shown self.old) }
        ensures memory { (most : ℕ) → IsMemory most self.old → IsMemory most self.new }
        ensures marks { MarksPart self.old self.new to (if result then count else 0) }
    {
        let size = u64::from(self.pages) * PAGE_SIZE;
        if size < count || to > size - count || from > size - count {
            return false;
        }
        self.bytes.copy(to as usize, from as usize, count as usize);
        mark_touched(&mut self.marks, to, count);
        true
    }

    /// Writes a byte so many times from an address on, if that part lies within the size, and marks the blocks that it lies in.
    /// Says whether it does.
    pub fn fill(&mut self, to: u64, value: u8, count: u64) -> bool
        requires { (most : ℕ) × IsMemory most self.old }
        ensures fits { result ≡ nat_le (to + count) (length (shown self.old)) }
        ensures after { shown self.new ≡ (if result then written (shown self.old) to (replicate count value) else shown self.old) }
        ensures memory { (most : ℕ) → IsMemory most self.old → IsMemory most self.new }
        ensures marks { MarksPart self.old self.new to (if result then count else 0) }
    {
        let size = u64::from(self.pages) * PAGE_SIZE;
        if size < count || to > size - count {
            return false;
        }
        self.bytes.fill(to as usize, value, count as usize);
        mark_touched(&mut self.marks, to, count);
        true
    }

    /// Whether so many bytes from an address on lie within the size.
    pub fn holds(&self, at: u64, count: u64) -> bool
        requires { (most : ℕ) × IsMemory most self.now }
        ensures { result ≡ nat_le (at + count) (length (shown self.now)) }
    {
        let size = u64::from(self.pages) * PAGE_SIZE;
        size >= count && at <= size - count
    }

    /// So many bytes from an address on.
    pub fn part(&self, from: u64, count: u64) -> &[u8]
        requires memory { (most : ℕ) × IsMemory most self.now }
        requires fits { from + count ≤ length (shown self.now) }
        ensures { result.now ≡ take count (drop from (shown self.now)) }
    {
        self.bytes.part(from as usize, count as usize)
    }

    /// Writes bytes of any number to an address, and marks the blocks that they lie in.
    pub fn place(&mut self, to: u64, piece: &[u8])
        requires memory { (most : ℕ) × IsMemory most self.old }
        requires fits { to + length piece.now ≤ length (shown self.old) }
        ensures after { shown self.new ≡ written (shown self.old) to piece.now }
        ensures memory { (most : ℕ) → IsMemory most self.old → IsMemory most self.new }
        ensures marks { MarksPart self.old self.new to (length piece.now) }
    {
        // The pages are counted in 32 bits.
        let _pages = self.pages;
        self.bytes.put(to as usize, piece);
        mark_touched(&mut self.marks, to, piece.len() as u64);
    }

    /// Grows by so many pages of zeros, if there are then at most `most`: the size before.
    pub fn grow(&mut self, most: u32, pages: u32) -> Option<u32>
        requires { (limit : ℕ) × IsMemory limit self.old × (most ≤ limit) }
        ensures grown { Grows most pages self.old result self.new }
        ensures memory { (limit : ℕ) → most ≤ limit → IsMemory limit self.old → IsMemory limit self.new }
        ensures marks { MarksPart self.old self.new 0 0 }
    {
        let before = self.pages;
        if pages > most || before > most - pages {
            return None;
        }
        let size = u64::from(before + pages) * PAGE_SIZE;
        self.bytes.make_accessible(size as usize);
        self.pages = before + pages;
        Some(before)
    }

    /// The byte at an address, if it lies within the size.
    pub fn read8(&self, at: u64) -> Option<u8>
        requires { (most : ℕ) × IsMemory most self.now }
        ensures { result ≡ (if nat_lt (length (shown self.now)) (at + 1) then None else Some (loaded w8 (shown self.now) at)) }
    {
        let size = u64::from(self.pages) * PAGE_SIZE;
        if at >= size {
            return None;
        }
        Some(u8::from_le_bytes([self.bytes.at(at as usize)]))
    }

    /// The two bytes at an address as a number, if they lie within the size.
    pub fn read16(&self, at: u64) -> Option<u16>
        requires { (most : ℕ) × IsMemory most self.now }
        ensures { result ≡ (if nat_lt (length (shown self.now)) (at + 2) then None else Some (loaded w16 (shown self.now) at)) }
    {
        let size = u64::from(self.pages) * PAGE_SIZE;
        if size < 2 || at > size - 2 {
            return None;
        }
        let at = at as usize;
        Some(u16::from_le_bytes([self.bytes.at(at), self.bytes.at(at + 1)]))
    }

    /// The four bytes at an address as a number, if they lie within the size.
    pub fn read32(&self, at: u64) -> Option<u32>
        requires { (most : ℕ) × IsMemory most self.now }
        ensures { result ≡ (if nat_lt (length (shown self.now)) (at + 4) then None else Some (loaded w32 (shown self.now) at)) }
    {
        let size = u64::from(self.pages) * PAGE_SIZE;
        if size < 4 || at > size - 4 {
            return None;
        }
        let at = at as usize;
        Some(u32::from_le_bytes([
            self.bytes.at(at),
            self.bytes.at(at + 1),
            self.bytes.at(at + 2),
            self.bytes.at(at + 3),
        ]))
    }

    /// The eight bytes at an address as a number, if they lie within the size.
    pub fn read64(&self, at: u64) -> Option<u64>
        requires { (most : ℕ) × IsMemory most self.now }
        ensures { result ≡ (if nat_lt (length (shown self.now)) (at + 8) then None else Some (loaded w64 (shown self.now) at)) }
    {
        let size = u64::from(self.pages) * PAGE_SIZE;
        if size < 8 || at > size - 8 {
            return None;
        }
        let at = at as usize;
        Some(u64::from_le_bytes([
            self.bytes.at(at),
            self.bytes.at(at + 1),
            self.bytes.at(at + 2),
            self.bytes.at(at + 3),
            self.bytes.at(at + 4),
            self.bytes.at(at + 5),
            self.bytes.at(at + 6),
            self.bytes.at(at + 7),
        ]))
    }
}
