//! Memories that are made those of a module of the store.
ghost use Rattle.std.specs.Prelude.{◌≡◌, ◌+◌, ◌*◌, ◌≤◌, false, Some, Option, length, map};
ghost use Rattle.wasm_types.specs.Tree.{module_tree};
ghost use Rattle.wasm_spec.specs.Store.{minimum_of, page_size};
ghost use Rattle.linear_memory.specs.Bytes.{size_of};
ghost use Rattle.linear_memory.specs.Marks.{count_marks};
ghost use Rattle.pool_model.specs.Contents.{Named, IsFreshMemory};
ghost use Rattle.memory_slots.specs.Kept.{IsKeptMemory, IsWrittenTo, contents_of};
ghost use Rattle.memory_slots.specs.Written.{WritesAtMost};

use block_restore::{Steps, restore_marked, write_all};
use linear_memory::Memory;
use memory_blocks::Marks;
use module_store::{LoadedModule, Naming};
use std::sync::ledger::Ledger;
use wasm_types::PAGE_SIZE;
use wasm_validate::Valid;

// The pages that the module's memory begins with; 0 where it has none.
fn least_pages(valid: &Valid) -> u32
    ensures { result ≡ minimum_of (module_tree valid.now).memories }
{
    match valid.module().memories.as_slice().first() {
        Some(limits) => limits.min,
        None => 0,
    }
}

// Makes the memory one of so many pages, whose bytes are accessible.
fn set_size(memory: &mut Memory, pages: u32)
    requires fits { pages * page_size ≤ length memory.old.bytes.items }
    requires few { pages ≤ 65536 }
    ensures bytes { memory.new.bytes.items ≡ memory.old.bytes.items }
    ensures accessible { pages * page_size ≤ memory.new.bytes.accessible }
    ensures size { memory.new.pages ≡ pages }
    ensures marks { memory.new.marks.items ≡ memory.old.marks.items }
{
    let size = u64::from(pages) * PAGE_SIZE;
    memory.bytes.make_accessible(size as usize);
    memory.pages = pages;
}

// Writes the marked blocks of a memory that belongs to the module over from its image, in one step each.
pub(crate) fn restore_memory<N: Naming, L: Ledger>(
    memory: &mut Memory,
    own: &LoadedModule<'_, N>,
    steps: &mut Steps<L>,
)
    requires { IsKeptMemory N.config (contents_of memory.old (Some own.now.module.now)) }
    ensures fresh { IsFreshMemory N.config.pages (contents_of memory.new (Some own.now.module.now)) own.now.module.now }
    ensures kept { IsKeptMemory N.config (contents_of memory.new (Some own.now.module.now)) }
    ensures marks { memory.new.marks.items ≡ map (λ marked. false) memory.old.marks.items }
    ensures accessible { size_of memory.new ≤ memory.new.bytes.accessible }
    ensures steps { steps.new ≡ steps.old + count_marks memory.old }
{
    let image = own.image();
    let pages = least_pages(own.valid());
    restore_marked(
        &mut memory.bytes,
        &mut memory.marks,
        Some(&image.memory),
        steps,
    );
    set_size(memory, pages);
}

// Makes a memory the module's fresh one. Before, it belonged to another module or to none, whose image is zero outside the blocks
// `written`; after it these are the blocks of the module's image. With one step each, only marked blocks and those of the two images
// are written.
pub(crate) fn write_memory<N: Naming, L: Ledger>(
    memory: &mut Memory,
    written: &mut Marks,
    loaded: &LoadedModule<'_, N>,
    steps: &mut Steps<L>,
)
    requires { (holds : Option Named) × IsWrittenTo N.config written.old.items (contents_of memory.old holds) }
    ensures fresh { IsFreshMemory N.config.pages (contents_of memory.new (Some loaded.now.module.now)) loaded.now.module.now }
    ensures written { IsWrittenTo N.config written.new.items (contents_of memory.new (Some loaded.now.module.now)) }
    ensures marks { memory.new.marks.items ≡ map (λ marked. false) memory.old.marks.items }
    ensures accessible { size_of memory.new ≤ memory.new.bytes.accessible }
    ensures steps { (holds : Option Named) → IsWrittenTo N.config written.old.items (contents_of memory.old holds)
        → WritesAtMost (contents_of memory.old holds) (Some loaded.now.module.now) steps.old steps.new }
{
    let image = loaded.image();
    let pages = least_pages(loaded.valid());
    write_all(
        &mut memory.bytes,
        &mut memory.marks,
        written,
        Some(&image.memory),
        steps,
    );
    set_size(memory, pages);
}
