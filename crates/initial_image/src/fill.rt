//! A table and a memory with their segments written, and the first values of the globals.
ghost use Rattle.std.specs.Prelude.{◌≡◌, ℕ, ◌≤◌, ◌++◌, None, Some, IfOk, OnOk, [], drop, fold, length, map};
ghost use Rattle.wasm_types.specs.Tree.{global_tree, module_tree};
ghost use Rattle.wasm_spec.specs.Store.{first_misfit, fresh_store, table_size};
ghost use Rattle.sparse_bytes.specs.SparseBytes.{HasBlock};
ghost use Rattle.initial_image.specs.Image.{IsNeeded, ShowsBytes};
ghost use Rattle.initial_image.specs.Segments.{first_data_misfit, first_element_misfit, first_value, write_elements};

use crate::segments::{minimum, offset_of};
use sparse_bytes::SparseBytes;
use std::alloc::{AllocError, Global};
use wasm_types::Module;
use wasm_validate::{Valid, initial_value};
use wasm_values::{NoMemory, Val};

// Each entry becomes the function of its place.
fn write_functions(entries: &mut [Option<u32>], functions: &[u32])
    requires { length entries.old ≡ length functions.now }
    ensures { entries.new ≡ map (λ f. Some f) functions.now }
{
    for (place, function) in functions.iter().enumerate() {
        entries[place] = Some(*function);
    }
}

// Writes the element segments, in order.
fn write_elements(m: &Module, table: &mut [Option<u32>])
    requires fit { first_element_misfit (module_tree m.now) ≡ None }
    requires size { length table.old ≡ table_size (module_tree m.now) }
    ensures { table.new ≡ fold (write_elements (module_tree m.now)) table.old (module_tree m.now).element_segments }
{
    for segment in m.element_segments.as_slice() {
        let start = offset_of(m, &segment.offset) as usize;
        let end = start + segment.functions.len();
        write_functions(&mut table[start..end], segment.functions.as_slice());
    }
}

/// How many entries the table of a new instance has.
pub fn table_length(valid: &Valid) -> usize
    ensures { result ≡ table_size (module_tree valid.now) }
{
    minimum(valid.module().tables.as_slice()) as usize
}

/// Writes the table of a new instance over the first entries, and says how many it has. The others stay. Takes no memory.
pub fn write_table(valid: &Valid, entries: &mut [Option<u32>]) -> usize
    requires fit { first_misfit (module_tree valid.now) ≡ None }
    requires room { table_size (module_tree valid.now) ≤ length entries.old }
    ensures count { result ≡ table_size (module_tree valid.now) }
    ensures table { entries.new ≡ (fresh_store (module_tree valid.now)).table ++ drop result entries.old }
{
    let m = valid.module();
    let count = minimum(m.tables.as_slice()) as usize;
    let table = &mut entries[..count];
    table.fill(None);
    write_elements(m, table);
    count
}

// Writes the data segments over zeros, in order.
fn write_data(alloc: Global, m: &Module, memory: &mut SparseBytes) -> Result<(), NoMemory>
    requires fit { first_data_misfit (module_tree m.now) ≡ None }
    requires zeros { ShowsBytes memory.old [] }
    requires blocks { (number : ℕ) → HasBlock memory.old number → ⊥ }
    ensures memory { OnOk result (ShowsBytes memory.new (fresh_store (module_tree m.now)).memory) }
    ensures blocks { OnOk result ((number : ℕ) → HasBlock memory.new number → IsNeeded (module_tree m.now) number) }
{
    for segment in m.data_segments.as_slice() {
        let start = offset_of(m, &segment.offset);
        memory.write(alloc, start, segment.bytes.as_slice())?;
    }
    Ok(())
}

// The memory of a new instance.
pub(crate) fn filled_memory(alloc: Global, m: &Module) -> Result<SparseBytes, NoMemory>
    requires fit { first_data_misfit (module_tree m.now) ≡ None }
    ensures memory { IfOk result (λ b. ShowsBytes b (fresh_store (module_tree m.now)).memory) }
    ensures blocks { IfOk result (λ b. (number : ℕ) → HasBlock b number → IsNeeded (module_tree m.now) number) }
{
    let mut memory = SparseBytes::zeros(alloc);
    write_data(alloc, m, &mut memory)?;
    Ok(memory)
}

// What a global begins with.
fn first_value(g: &wasm_types::Global) -> Val
    ensures { result ≡ first_value (global_tree g.now) }
{
    initial_value(g).unwrap_or(Val::I32(0))
}

// What these globals begin with.
pub(crate) fn first_values(
    alloc: Global,
    globals: &[wasm_types::Global],
) -> Result<Vec<Val>, AllocError>
    ensures { IfOk result (λ vs. vs.items ≡ map (λ g. first_value (global_tree g)) globals.now) }
{
    let mut values = Vec::with_capacity(alloc, globals.len())?;
    for global in globals {
        values.push(first_value(global))?;
    }
    Ok(values)
}
