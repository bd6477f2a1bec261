//! The conditions on a module's parts, one function each.

ghost use Rattle.std.specs.Prelude.{◌≡◌, ◌≤◌, ◌↔◌, ℕ, List, All, IsTrue, IsSome, IfSome, length};
ghost use Rattle.wasm_types.specs.Tree.{module_tree, global_tree, element_tree, data_tree};
ghost use Rattle.wasm_spec.specs.Functions.{Imported, callee_at, callee_type};
ghost use Rattle.wasm_spec.specs.Validity as validity;
ghost use Rattle.wasm_spec.specs.Validity.{AreOrdered, IsMemoryType, IsInitialised, IsElementSegment, IsDataSegment, IsStart, IsDefined};
ghost use Rattle.wasm_validate.specs.Checked.{HasValidParts};

use crate::constant::{initial_value, offset_value};
use wasm_checker::{function_type, type_of};
use wasm_types::{
    DataSegment, ElementSegment, ExportDesc, Global, Import, ImportDesc, Limits, Module,
};

// Whether each function type has at most one result.
fn have_one_result(m: &Module) -> bool
    ensures { IsTrue result ↔ All (λ t. length t.results ≤ 1) m.now.types }
{
    m.types.as_slice().iter().all(|t| t.results.len() <= 1)
}

fn are_ordered(l: &Limits) -> bool
    ensures { IsTrue result ↔ AreOrdered l.now }
{
    match l.max {
        Some(max) => l.min <= max,
        None => true,
    }
}

// Whether a memory has at most 65,536 pages.
fn is_memory_type(l: &Limits) -> bool
    ensures { IsTrue result ↔ IsMemoryType l.now }
{
    l.min <= 65536 && are_ordered(l) && is_at_most(l.max, 65536)
}

fn is_at_most(max: Option<u32>, limit: u32) -> bool
    ensures { IsTrue result ↔ IfSome max (λ most. most ≤ limit) }
{
    match max {
        Some(max) => max <= limit,
        None => true,
    }
}

// Whether a global's initialiser is one constant of its type.
fn is_initialised(g: &Global) -> bool
    ensures { IsTrue result ↔ IsInitialised (global_tree g.now) }
{
    match initial_value(g) {
        Some(v) => type_of(v) == g.global_type.value,
        None => false,
    }
}

// Whether a function has this number; the imports have the first ones.
fn has_function(m: &Module, x: u32) -> bool
    ensures { IsTrue result ↔ IsSome (callee_at (module_tree m.now) x) }
{
    let x = x as usize;
    x < m.imports.len() || x - m.imports.len() < m.functions.len()
}

// Whether an imported function's type is there.
fn has_type(m: &Module, import: &Import) -> bool
    ensures { IsTrue result ↔ IsSome (callee_type (module_tree m.now) (Imported import.now)) }
{
    match import.desc {
        ImportDesc::Func(t) => (t as usize) < m.types.len(),
        _ => false,
    }
}

fn have_types(m: &Module) -> bool
    ensures { IsTrue result ↔ All (λ i. IsSome (callee_type (module_tree m.now) (Imported i))) m.now.imports }
{
    m.imports.as_slice().iter().all(|i| has_type(m, i))
}

fn is_element_segment(m: &Module, s: &ElementSegment) -> bool
    ensures { IsTrue result ↔ IsElementSegment (module_tree m.now) (element_tree s.now) }
{
    (s.table as usize) < m.tables.len()
        && offset_value(m, &s.offset).is_some()
        && s.functions.as_slice().iter().all(|x| has_function(m, *x))
}

fn is_data_segment(m: &Module, s: &DataSegment) -> bool
    ensures { IsTrue result ↔ IsDataSegment (module_tree m.now) (data_tree s.now) }
{
    (s.memory as usize) < m.memories.len() && offset_value(m, &s.offset).is_some()
}

// Whether a function takes nothing and gives nothing.
fn is_start(m: &Module, x: u32) -> bool
    ensures { IsTrue result ↔ IsStart (module_tree m.now) x }
{
    match function_type(m, x) {
        Some(t) => t.params.is_empty() && t.results.is_empty(),
        None => false,
    }
}

// Whether what starts is a function that may.
fn has_start(m: &Module) -> bool
    ensures { IsTrue result ↔ IfSome m.now.start (IsStart (module_tree m.now)) }
{
    match m.start {
        Some(x) => is_start(m, x),
        None => true,
    }
}

// Whether what is exported is there.
fn is_defined(m: &Module, desc: ExportDesc) -> bool
    ensures { IsTrue result ↔ IsDefined (module_tree m.now) desc }
{
    match desc {
        ExportDesc::Func(x) => has_function(m, x),
        ExportDesc::Table(x) => (x as usize) < m.tables.len(),
        ExportDesc::Memory(x) => (x as usize) < m.memories.len(),
        ExportDesc::Global(x) => (x as usize) < m.globals.len(),
    }
}

fn have_tables(m: &Module) -> bool
    ensures { IsTrue result ↔ ((length m.now.tables ≤ 1) × All AreOrdered m.now.tables) }
{
    m.tables.len() <= 1 && m.tables.as_slice().iter().all(|l| are_ordered(l))
}

fn have_memories(m: &Module) -> bool
    ensures { IsTrue result ↔ ((length m.now.memories ≤ 1) × All IsMemoryType m.now.memories) }
{
    m.memories.len() <= 1 && m.memories.as_slice().iter().all(|l| is_memory_type(l))
}

fn are_initialised(m: &Module) -> bool
    ensures { IsTrue result ↔ All (λ g. IsInitialised (global_tree g)) m.now.globals }
{
    m.globals.as_slice().iter().all(|g| is_initialised(g))
}

fn are_element_segments(m: &Module) -> bool
    ensures { IsTrue result ↔ All (λ s. IsElementSegment (module_tree m.now) (element_tree s)) m.now.element_segments }
{
    m.element_segments
        .as_slice()
        .iter()
        .all(|s| is_element_segment(m, s))
}

fn are_data_segments(m: &Module) -> bool
    ensures { IsTrue result ↔ All (λ s. IsDataSegment (module_tree m.now) (data_tree s)) m.now.data_segments }
{
    m.data_segments
        .as_slice()
        .iter()
        .all(|s| is_data_segment(m, s))
}

fn are_defined(m: &Module) -> bool
    ensures { IsTrue result ↔ All (λ e. IsDefined (module_tree m.now) e.desc) m.now.exports }
{
    m.exports.as_slice().iter().all(|e| is_defined(m, e.desc))
}

/// Whether all is valid but for the functions' code and the names of the exports.
pub(crate) fn has_valid_parts(m: &Module) -> bool
    ensures { IsTrue result ↔ HasValidParts m.now }
{
    have_one_result(m)
        && have_types(m)
        && have_tables(m)
        && have_memories(m)
        && are_initialised(m)
        && are_element_segments(m)
        && are_data_segments(m)
        && has_start(m)
        && are_defined(m)
}
