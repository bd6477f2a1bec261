//! The bytes of a memory while its blocks are written over: each block that is written is a step.
ghost use Rattle.std.specs.Prelude.{◌≡◌, ◌+◌, ◌*◌, ◌<◌, ◌≤◌, ◌^◌, ℕ, length, slice_index};
ghost use Rattle.memory_blocks.specs.Blocks.{block_size};
ghost use Rattle.block_restore.specs.Counted.{AreSame};
ghost use Rattle.sparse_bytes.specs.SparseBytes.{byte_at};
ghost use Rattle.block_restore.specs.Images.{IsWrittenBlock, byte_of};

use crate::steps::Steps;
use linear_memory::ZeroedBytes;
use sparse_bytes::{BLOCK_SIZE, SparseBytes};
use std::sync::ledger::Ledger;

// Bytes that only `write_block` writes, and that in a step.
#[derive(Drop)]
pub(crate) struct CountedBytes<'a, L: Ledger> {
    bytes: &'a mut ZeroedBytes,
    steps: &'a mut Steps<L>,
}

// Writes a block over from an image of which it is not kept whole. A function pays for the size of its locals whenever it is
// called, so this stands apart.
#[cold]
#[inline(never)]
fn write_joined(bytes: &mut ZeroedBytes, image: &SparseBytes, block: usize)
    requires few { block < 2 ^ 26 }
    requires within { block_size * block + block_size ≤ length bytes.old.items }
    requires accessible { block_size * block + block_size ≤ bytes.old.accessible }
    ensures { IsWrittenBlock (byte_at image.now) block bytes.old.items bytes.new.items }
{
    let mut piece = [0u8; BLOCK_SIZE];
    image.copy_block(block, &mut piece);
    bytes.put(block * BLOCK_SIZE, &piece);
}

// Writes a block over from an image: in one copy, where the image keeps it whole.
fn write_kept(bytes: &mut ZeroedBytes, image: &SparseBytes, block: usize)
    requires few { block < 2 ^ 26 }
    requires within { block_size * block + block_size ≤ length bytes.old.items }
    requires accessible { block_size * block + block_size ≤ bytes.old.accessible }
    ensures { IsWrittenBlock (byte_at image.now) block bytes.old.items bytes.new.items }
{
    match image.whole_block(block) {
        Some(whole) => bytes.put(block * BLOCK_SIZE, whole),
        None => write_joined(bytes, image, block),
    }
}

// Writes a block over from the image; without one, with zeros.
fn write_image(bytes: &mut ZeroedBytes, image: Option<&SparseBytes>, block: usize)
    requires few { block < 2 ^ 26 }
    requires within { block_size * block + block_size ≤ length bytes.old.items }
    ensures { IsWrittenBlock (byte_of image.entry) block bytes.old.items bytes.new.items }
{
    let start = block * BLOCK_SIZE;
    bytes.make_accessible(start + BLOCK_SIZE);
    match image {
        Some(image) => write_kept(bytes, image, block),
        None => bytes.fill(start, 0, BLOCK_SIZE),
    }
}

impl<'a, L: Ledger> CountedBytes<'a, L> {
    pub(crate) fn new(bytes: &'a mut ZeroedBytes, steps: &'a mut Steps<L>) -> CountedBytes<'a, L>
        ensures references { (result.bytes.ghost_name ≡ bytes.entry.ghost_name) × (result.steps.ghost_name ≡ steps.entry.ghost_name) }
        ensures same { (result.bytes.now ≡ bytes.old) × (result.steps.now ≡ steps.old) }
    {
        CountedBytes { bytes, steps }
    }

    // Writes a block over from the image; without one, with zeros.
    pub(crate) fn write_block(&mut self, image: Option<&SparseBytes>, block: usize)
        requires few { block < 2 ^ 26 }
        requires within { block_size * block + block_size ≤ length self.old.bytes.now.items }
        ensures references { AreSame self.old self.new }
        ensures image { (i : ℕ) → block_size * block ≤ i → i < block_size * block + block_size
            → slice_index self.new.bytes.now.items i ≡ byte_of image.entry i }
        ensures before { (i : ℕ) → i < block_size * block → slice_index self.new.bytes.now.items i ≡ slice_index self.old.bytes.now.items i }
        ensures after { (i : ℕ) → block_size * block + block_size ≤ i → slice_index self.new.bytes.now.items i ≡ slice_index self.old.bytes.now.items i }
        ensures room { length self.new.bytes.now.items ≡ length self.old.bytes.now.items }
        ensures step { self.new.steps.now ≡ self.old.steps.now + 1 }
    {
        write_image(self.bytes, image, block);
        self.steps.tick();
    }
}
