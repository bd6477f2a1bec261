//! Bytes in cells of 64.
ghost use Rattle.std.specs.Prelude.{◌≡◌, ℕ, ◌+◌, ◌-◌, ◌*◌, ◌/◌, ◌^◌, ◌<◌, ◌≤◌, false, true, OnOk, length, slice_index, slice_index_or};
ghost use Rattle.sparse_bytes.specs.Cells.{HasCell, WritesCells, cell_at, cell_byte};

use memory_blocks::Marks;
use std::alloc::Global;
use std::collections::BTreeMap;
use wasm_values::NoMemory;

// How many bytes a cell has.
pub(crate) const CELL_SIZE: usize = 64;

// Bytes from 0 on without end, all zero but in the cells that were written to.
pub(crate) struct Cells {
    cells: BTreeMap<usize, [u8; CELL_SIZE]>,
}

impl Drop for Cells {
    fn drop(self) {
        let Cells { cells: _ } = self;
    }
}

// Writes a cell from a place on, as far as the part reaches.
fn put_cell(part: &mut [u8], start: usize, cell: &[u8; CELL_SIZE])
    requires { start ≤ length part.old }
    ensures within { (i : ℕ) → start ≤ i → i < start + CELL_SIZE → i < length part.new
        → slice_index part.new i ≡ slice_index cell.now (i - start) }
    ensures before { (i : ℕ) → i < start → slice_index part.new i ≡ slice_index part.old i }
    ensures after { (i : ℕ) → start + CELL_SIZE ≤ i → slice_index part.new i ≡ slice_index part.old i }
    ensures room { length part.new ≡ length part.old }
{
    let count = (part.len() - start).min(CELL_SIZE);
    part[start..start + count].copy_from_slice(&cell[..count]);
}

impl Cells {
    // All zeros. Takes no memory.
    #[tactic(auto, unfolding(crate::specs::Cells::cell_byte))]
    pub(crate) fn zeros(alloc: Global) -> Cells
        ensures zeros { (i : ℕ) → cell_byte result i ≡ 0 }
        ensures cells { (number : ℕ) → HasCell result number → ⊥ }
    {
        Cells {
            cells: BTreeMap::new(alloc),
        }
    }

    // The cell of a number, or zeros where there is none.
    #[tactic(auto, using(crate::proofs::CellLemmas::cell_or_zeros))]
    fn cell(&self, number: usize) -> [u8; CELL_SIZE]
        ensures { (j : ℕ) → slice_index result j ≡ slice_index (cell_at self.now number) j }
    {
        self.cells.get(&number).copied().unwrap_or([0; CELL_SIZE])
    }

    // Writes a piece into one cell, from a place in it on.
    fn write_cell(&mut self, number: usize, from: usize, piece: &[u8]) -> Result<(), NoMemory>
        requires some { 0 < length piece.now }
        requires fits { from + length piece.now ≤ CELL_SIZE }
        ensures { OnOk result (WritesCells (CELL_SIZE * number + from) piece.now self.old self.new) }
    {
        let mut cell = self.cell(number);
        cell[from..from + piece.len()].copy_from_slice(piece);
        match self.cells.insert(number, cell) {
            Ok(_) => Ok(()),
            Err(_) => Err(NoMemory),
        }
    }

    // Writes bytes from a place on. Takes a cell for each that they touch, and time in proportion to the bytes. Where memory was
    // refused it is left open how much is written.
    pub(crate) fn write(&mut self, start: usize, bytes: &[u8]) -> Result<(), NoMemory>
        requires { start + length bytes.now ≤ 2 ^ 64 }
        ensures { OnOk result (WritesCells start bytes.now self.old self.new) }
    {
        let mut done = 0;
        while done < bytes.len() {
            let place = start + done;
            let from = place % CELL_SIZE;
            let count = (CELL_SIZE - from).min(bytes.len() - done);
            self.write_cell(place / CELL_SIZE, from, &bytes[done..done + count])?;
            done += count;
        }
        Ok(())
    }

    // Fills a part with the bytes from the cell of a number on. Takes no memory, and time in proportion to the part.
    pub(crate) fn copy_to(&self, first: usize, part: &mut [u8])
        requires { first < 2 ^ 58 }
        ensures bytes { (i : ℕ) → i < length part.new
            → slice_index part.new i ≡ cell_byte self.now (CELL_SIZE * first + i) }
        ensures room { length part.new ≡ length part.old }
    {
        part.fill(0);
        let end = first + part.len().div_ceil(CELL_SIZE);
        for (number, cell) in self.cells.range(first..end) {
            put_cell(part, (*number - first) * CELL_SIZE, cell);
        }
    }

    // Marks each block of so many cells that has a cell that was written to, and leaves the other marks as they were: a byte
    // in a block with no mark is zero. Takes no memory, and time in proportion to the cells that were written to.
    pub(crate) fn mark_blocks(&self, cells: u32, marks: &mut Marks)
        requires { 0 < cells }
        ensures covered { (i : ℕ) → i < CELL_SIZE * cells * length marks.new.items
            → slice_index_or marks.new.items (i / (CELL_SIZE * cells)) false ≡ false → cell_byte self.now i ≡ 0 }
        ensures kept { (k : ℕ) → slice_index_or marks.new.items k false ≡ false → slice_index_or marks.old.items k false ≡ false }
        ensures least { (k : ℕ) → slice_index_or marks.old.items k false ≡ false → slice_index_or marks.new.items k false ≡ true
            → (number : ℕ) × HasCell self.now number × (number / cells ≡ k) }
        ensures room { length marks.new.items ≡ length marks.old.items }
    {
        for number in self.cells.keys() {
            marks.mark(*number / cells as usize);
        }
    }
}
