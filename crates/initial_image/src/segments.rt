//! Where segments end, and the first that reaches past its table or memory.
ghost use Rattle.std.specs.Prelude.{◌≡◌, ◌+◌, ◌<◌, ◌≤◌, ◌^◌, None, IfOk, IfErr, OnOk, IsErrOf, length};
ghost use Rattle.wasm_types.specs.Tree.{expr_tree, module_tree};
ghost use Rattle.wasm_spec.specs.Store.{minimum_of};
ghost use Rattle.wasm_spec.specs.Store as store;
ghost use Rattle.initial_image.specs.Segments.{first_element_misfit, first_data_misfit, Names};

use crate::image::ImageFault;
use thiserror::Error;
use wasm_types::{Expr, Limits, Module, PAGE_SIZE};
use wasm_validate::offset_value;

/// A segment by its place among the element segments or among the data segments.
#[derive(Clone, Copy, Debug, PartialEq, Eq)]
pub enum SegmentIndex {
    Element(usize),
    Data(usize),
}

/// A segment that ends past its table or memory: its end and that size, in elements or in bytes.
#[derive(Clone, Copy, Debug, PartialEq, Eq, Error)]
#[error("{which:?} ends at {end}, past the size {size}")]
pub struct Misfit {
    pub which: SegmentIndex,
    pub end: u64,
    pub size: u64,
}

// The least size of the one memory or table, or 0 where there is none.
pub(crate) fn minimum(limits: &[Limits]) -> u32
    ensures { result ≡ minimum_of limits.now }
{
    limits.first().map_or(0, |l| l.min)
}

// Where a segment begins, read as an unsigned number.
pub(crate) fn offset_of(m: &Module, offset: &Expr) -> u32
    ensures { result ≡ store.offset_of (module_tree m.now) (expr_tree offset.now) }
{
    offset_value(m, offset).unwrap_or(0)
}

// Where a segment of this length ends, if it is within its table or memory. An end that no memory could hold is want of
// memory.
fn checked_end(
    which: SegmentIndex,
    offset: u32,
    length: usize,
    size: u64,
) -> Result<u64, ImageFault>
    requires { size < 2 ^ 64 }
    ensures fits { IfOk result (λ end. (end ≡ offset + length) × (end ≤ size)) }
    ensures misfit { (f : Misfit) → IsErrOf result (ImageFault.Segment f)
        → (f ≡ record { which = which; end = offset + length; size = size }) × (size < offset + length) }
    ensures memory { IsErrOf result ImageFault.NoMemory → 2 ^ 64 ≤ offset + length }
{
    let Some(end) = (offset as u64).checked_add(length as u64) else {
        return Err(ImageFault::NoMemory);
    };
    if end <= size {
        Ok(end)
    } else {
        Err(ImageFault::Segment(Misfit { which, end, size }))
    }
}

// Each element segment is within the table, or the first that is not.
pub(crate) fn check_elements(m: &Module) -> Result<(), ImageFault>
    ensures fit { OnOk result (first_element_misfit (module_tree m.now) ≡ None) }
    ensures misfit { IfErr result (Names (first_element_misfit (module_tree m.now))) }
{
    let size = minimum(m.tables.as_slice()) as u64;
    for (place, segment) in m.element_segments.as_slice().iter().enumerate() {
        let offset = offset_of(m, &segment.offset);
        let length = segment.functions.len();
        checked_end(SegmentIndex::Element(place), offset, length, size)?;
    }
    Ok(())
}

// Each data segment is within the memory, or the first that is not.
pub(crate) fn check_data(m: &Module) -> Result<(), ImageFault>
    ensures fit { OnOk result (first_data_misfit (module_tree m.now) ≡ None) }
    ensures misfit { IfErr result (Names (first_data_misfit (module_tree m.now))) }
{
    let size = minimum(m.memories.as_slice()) as u64 * PAGE_SIZE;
    for (place, segment) in m.data_segments.as_slice().iter().enumerate() {
        let offset = offset_of(m, &segment.offset);
        let length = segment.bytes.len();
        checked_end(SegmentIndex::Data(place), offset, length, size)?;
    }
    Ok(())
}
