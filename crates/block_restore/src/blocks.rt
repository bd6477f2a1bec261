//! Blocks of a memory, and how they are written over from an image.
ghost use Rattle.std.specs.Prelude.{◌≡◌, ◌+◌, ◌*◌, ◌≤◌, ◌^◌, Bool, true, false, ℕ, length, slice_index_or, count_by};
ghost use Rattle.memory_blocks.specs.Blocks.{block_size};
ghost use Rattle.block_restore.specs.Images.{HasBlockOf, HasImage, HasMarked, KeepsImage, IsZeroOutside, byte_of, count_in};

use crate::counted_bytes::CountedBytes;
use crate::steps::Steps;
use linear_memory::ZeroedBytes;
use memory_blocks::Marks;
use sparse_bytes::SparseBytes;
use std::sync::ledger::Ledger;

// Writes the blocks that are marked over from the image, in one step each, and takes their marks away. Only where marks lie is looked.
pub fn restore_marked<L: Ledger>(
    bytes: &mut ZeroedBytes,
    marks: &mut Marks,
    image: Option<&SparseBytes>,
    steps: &mut Steps<L>,
)
    requires marked { length bytes.old.items ≡ block_size * length marks.old.items }
    requires few { length marks.old.items ≤ 2 ^ 26 }
    requires outside { KeepsImage bytes.old.items marks.old.items (byte_of image) }
    ensures bytes { HasImage bytes.new.items (byte_of image.entry) }
    ensures marks { (k : ℕ) → slice_index_or marks.new.items k false ≡ false }
    ensures room { (length bytes.new.items ≡ length bytes.old.items) × (length marks.new.items ≡ length marks.old.items) }
    ensures steps { steps.new ≡ steps.old + count_by (λ marked. marked) marks.old.items }
{
    let mut counted = CountedBytes::new(bytes, steps);
    while let Some(block) = marks.take_first() {
        counted.write_block(image, block);
    }
}

// Marks the blocks in which a byte of the image may not be zero, and no other.
fn mark_written(written: &mut Marks, image: Option<&SparseBytes>)
    ensures zeros { IsZeroOutside (block_size * length written.new.items) written.new.items (byte_of image.entry) }
    ensures least { (k : ℕ) → slice_index_or written.new.items k false ≡ true → HasBlockOf image.entry k }
    ensures room { length written.new.items ≡ length written.old.items }
{
    written.clear();
    if let Some(image) = image {
        image.mark_blocks(written);
    }
}

// Makes all bytes the image's, or zero without one, and takes all marks away. Outside marked blocks they were those of another image,
// which is zero outside the blocks `written`; after it these are the blocks of the new one. With one step each, only marked blocks and
// those of the two images are written: zeros that are there already are not.
pub fn write_all<L: Ledger>(
    bytes: &mut ZeroedBytes,
    marks: &mut Marks,
    written: &mut Marks,
    image: Option<&SparseBytes>,
    steps: &mut Steps<L>,
)
    requires marked { length bytes.old.items ≡ block_size * length marks.old.items }
    requires few { length marks.old.items ≤ 2 ^ 26 }
    requires blocks { length written.old.items ≡ length marks.old.items }
    requires outside { (other : ℕ → ℕ) × KeepsImage bytes.old.items marks.old.items other × IsZeroOutside (length bytes.old.items) written.old.items other }
    ensures bytes { HasImage bytes.new.items (byte_of image.entry) }
    ensures marks { (k : ℕ) → slice_index_or marks.new.items k false ≡ false }
    ensures written { IsZeroOutside (length bytes.new.items) written.new.items (byte_of image.entry) }
    ensures least { (k : ℕ) → slice_index_or written.new.items k false ≡ true → HasBlockOf image.entry k }
    ensures room { (length bytes.new.items ≡ length bytes.old.items) × (length marks.new.items ≡ length marks.old.items) }
    ensures blocks { length written.new.items ≡ length written.old.items }
    ensures steps { (set : ℕ → Bool) → HasMarked set marks.old.items → HasMarked set written.old.items → HasMarked set written.new.items
        → steps.new ≤ steps.old + count_in set (length marks.old.items) }
{
    marks.mark_all_of(written);
    mark_written(written, image);
    marks.mark_all_of(written);
    restore_marked(bytes, marks, image, steps);
}
