//! Bytes of which most are zero.
ghost use Rattle.std.specs.Prelude.{◌≡◌, ◌≢◌, ◌↔◌, ℕ, ◌+◌, ◌*◌, ◌/◌, ◌^◌, ◌<◌, ◌≤◌, false, true, IfOk, IfSome, IsSome, OnOk, length, slice_index, slice_index_or};
ghost use Rattle.std.specs.Ordering.{nat_cmp};
ghost use Rattle.std.specs.BTreeMap.{get};
ghost use Rattle.sparse_bytes.specs.Cells.{cell_byte};
ghost use Rattle.sparse_bytes.specs.SparseBytes.{HasBlock, IsWritten, byte_at};

use crate::cells::{CELL_SIZE, Cells};
use memory_blocks::Marks;
use std::alloc::Global;
use std::collections::BTreeMap;
use wasm_values::NoMemory;

/// How many bytes a block has.
pub const BLOCK_SIZE: usize = 4096;

// How many cells make a block.
const CELLS_IN_BLOCK: usize = BLOCK_SIZE / CELL_SIZE;

// The fewest bytes of one piece for which a block is kept whole. So a byte that was written takes no more than in a cell of its own.
const LEAST_WHOLE: usize = 256;

/// Bytes from 0 on without end, all zero but in the blocks that were written to.
pub struct SparseBytes {
    // The blocks that are kept whole.
    whole: BTreeMap<usize, Box<[u8; BLOCK_SIZE]>>,
    // The bytes of all others.
    cells: Cells,
}

impl Drop for SparseBytes {
    fn drop(self) {
        let SparseBytes { whole: _, cells: _ } = self;
    }
}

impl SparseBytes {
    /// All zeros. Takes no memory.
    #[tactic(auto, unfolding(crate::specs::SparseBytes::byte_at))]
    pub fn zeros(alloc: Global) -> SparseBytes
        ensures zeros { (i : ℕ) → byte_at result i ≡ 0 }
        ensures blocks { (number : ℕ) → HasBlock result number → ⊥ }
    {
        SparseBytes {
            whole: BTreeMap::new(alloc),
            cells: Cells::zeros(alloc),
        }
    }

    // The bytes of a block, by its cells.
    fn joined(&self, alloc: Global, number: usize) -> Result<Box<[u8; BLOCK_SIZE]>, NoMemory>
        requires { number < 2 ^ 52 }
        ensures { IfOk result (λ block. (i : ℕ) → i < BLOCK_SIZE → slice_index block.value i ≡ cell_byte self.now.cells (BLOCK_SIZE * number + i)) }
    {
        let mut block = [0u8; BLOCK_SIZE];
        self.cells.copy_to(CELLS_IN_BLOCK * number, &mut block);
        Box::new(alloc, block).map_err(|_| NoMemory)
    }

    // The bytes of a block, which is taken out of those that are kept whole if it is one of them.
    #[tactic(auto, unfolding(crate::specs::SparseBytes::byte_at))]
    fn take_block(
        &mut self,
        alloc: Global,
        number: usize,
    ) -> Result<Box<[u8; BLOCK_SIZE]>, NoMemory>
        requires { number < 2 ^ 52 }
        ensures bytes { IfOk result (λ block. (i : ℕ) → i < BLOCK_SIZE → slice_index block.value i ≡ byte_at self.old (BLOCK_SIZE * number + i)) }
        ensures others { (q : ℕ) → q ≢ number → get nat_cmp self.new.whole q ≡ get nat_cmp self.old.whole q }
        ensures cells { self.new.cells ≡ self.old.cells }
    {
        match self.whole.remove(&number) {
            Some(block) => Ok(block),
            None => self.joined(alloc, number),
        }
    }

    // Writes a piece into one block, from a place in it on, and keeps that whole.
    fn write_whole(
        &mut self,
        alloc: Global,
        number: usize,
        from: usize,
        piece: &[u8],
    ) -> Result<(), NoMemory>
        requires number { number < 2 ^ 52 }
        requires some { 0 < length piece.now }
        requires fits { from + length piece.now ≤ BLOCK_SIZE }
        ensures { OnOk result (IsWritten (BLOCK_SIZE * number + from) piece.now self.old self.new) }
    {
        let mut block = self.take_block(alloc, number)?;
        block[from..from + piece.len()].copy_from_slice(piece);
        match self.whole.insert(number, block) {
            Ok(_) => Ok(()),
            Err(_) => Err(NoMemory),
        }
    }

    // Writes a piece into one block, from a place in it on.
    fn write_block(
        &mut self,
        alloc: Global,
        number: usize,
        from: usize,
        piece: &[u8],
    ) -> Result<(), NoMemory>
        requires number { number < 2 ^ 52 }
        requires some { 0 < length piece.now }
        requires fits { from + length piece.now ≤ BLOCK_SIZE }
        ensures { OnOk result (IsWritten (BLOCK_SIZE * number + from) piece.now self.old self.new) }
    {
        if piece.len() < LEAST_WHOLE && !self.whole.contains_key(&number) {
            return self.cells.write(BLOCK_SIZE * number + from, piece);
        }
        self.write_whole(alloc, number, from, piece)
    }

    /// Writes bytes from a place on. Takes memory and time in proportion to the bytes.
    ///
    /// # Errors
    ///
    /// `NoMemory` where memory was refused: how much is written then is left open.
    pub fn write(&mut self, alloc: Global, start: u32, bytes: &[u8]) -> Result<(), NoMemory>
        ensures { OnOk result (IsWritten start bytes.now self.old self.new) }
    {
        let mut done = 0;
        while done < bytes.len() {
            let place = start as usize + done;
            let from = place % BLOCK_SIZE;
            let count = (BLOCK_SIZE - from).min(bytes.len() - done);
            self.write_block(alloc, place / BLOCK_SIZE, from, &bytes[done..done + count])?;
            done += count;
        }
        Ok(())
    }

    /// The bytes of the block of a number, if it is kept whole: a piece of it was long enough.
    pub fn whole_block(&self, number: usize) -> Option<&[u8]>
        ensures size { IfSome result (λ block. length block.now ≡ BLOCK_SIZE) }
        ensures bytes { IfSome result (λ block. (i : ℕ) → i < BLOCK_SIZE → slice_index block.now i ≡ byte_at self.now (BLOCK_SIZE * number + i)) }
        ensures there { IsSome result ↔ IsSome (get nat_cmp self.now.whole number) }
    {
        let block = self.whole.get(&number)?;
        Some(&block[..])
    }

    /// Fills a part with the bytes of the block of a number. Takes no memory.
    pub fn copy_block(&self, number: usize, part: &mut [u8])
        requires number { number < 2 ^ 52 }
        requires size { length part.old ≡ BLOCK_SIZE }
        ensures bytes { (i : ℕ) → i < BLOCK_SIZE → slice_index part.new i ≡ byte_at self.now (BLOCK_SIZE * number + i) }
        ensures room { length part.new ≡ BLOCK_SIZE }
    {
        match self.whole_block(number) {
            Some(block) => part.copy_from_slice(block),
            None => self.cells.copy_to(CELLS_IN_BLOCK * number, part),
        }
    }

    /// Marks each block that was written to, and leaves the other marks as they were: a byte in a block with no mark is zero. Takes no
    /// memory, and time in proportion to the blocks and cells that were written to.
    pub fn mark_blocks(&self, marks: &mut Marks)
        ensures covered { (i : ℕ) → i < BLOCK_SIZE * length marks.new.items
            → slice_index_or marks.new.items (i / BLOCK_SIZE) false ≡ false → byte_at self.now i ≡ 0 }
        ensures kept { (k : ℕ) → slice_index_or marks.new.items k false ≡ false → slice_index_or marks.old.items k false ≡ false }
        ensures least { (k : ℕ) → slice_index_or marks.old.items k false ≡ false → slice_index_or marks.new.items k false ≡ true → HasBlock self.now k }
        ensures room { length marks.new.items ≡ length marks.old.items }
    {
        self.cells.mark_blocks(CELLS_IN_BLOCK as u32, marks);
        for number in self.whole.keys() {
            marks.mark(*number);
        }
    }
}
