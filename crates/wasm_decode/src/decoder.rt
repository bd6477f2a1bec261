//! Modules, from their sections.

ghost use Rattle.std.specs.Prelude.{◌≡◌, ◌++◌, ◌<◌, ℕ, List, length, map, IfOk, IsErrOf, OnErr, MatchOption};
ghost use Rattle.wasm_types.specs.Tree.{function_tree, module_tree};
ghost use Rattle.wasm_spec.specs.TypeGrammar.{TakesTableType};
ghost use Rattle.wasm_spec.specs.Grammar.{SpellsVec, SpellsFields, Spells, section};
ghost use Rattle.wasm_decode.specs.Decoding.{Decodes};
ghost use Rattle.wasm_decode.specs.Fields.{SpellsFunctions, SpellsDefinitions, SpellsInitialization, definitions_tree, initialization_tree};
ghost use Rattle.wasm_decode.specs.Sections.{section_of, WantsModule};

use crate::function::{SizedBody, join};
use crate::section::{
    Section, are_in_order, decode_section, decode_start, is_counted, read_sections,
};
use crate::types::TableType;
use instr_decode::DecodeFault;
use std::alloc::{AllocError, Global};
use wasm_types::{
    DataSegment, ElementSegment, FuncType, Function, Global as GlobalItem, Limits, Module,
};
use wasm_values::{Items, Profile};

// The magic bytes and the version.
const HEADER: [u8; 8] = [0x00, 0x61, 0x73, 0x6D, 0x01, 0x00, 0x00, 0x00];

/// The module whose tree these bytes spell in a profile (`Spells`). Source: Core Specification 1.0, section 5.5.15; for the data
/// count section version 2.0, section 5.5.16.
///
/// # Errors
///
/// `Malformed` only where the bytes spell no module; `NoMemory` only where a section stands behind the header.
pub fn decode(alloc: Global, profile: Profile, bytes: &[u8]) -> Result<Module, DecodeFault>
    ensures read { Decodes (Spells profile bytes.now) module_tree result }
    ensures wanted { IsErrOf result DecodeFault.NoMemory → WantsModule bytes.now }
{
    let Some(after) = after_header(bytes) else {
        return Err(DecodeFault::Malformed);
    };
    let sections = read_sections(alloc, after)?;
    if are_in_order(profile, sections.as_slice()) {
        decode_fields(alloc, profile, sections.as_slice())
    } else {
        Err(DecodeFault::Malformed)
    }
}

// The bytes after the header.
fn after_header(bytes: &[u8]) -> Option<&[u8]>
    ensures { MatchOption result ((after : List ℕ) → bytes.now ≡ HEADER ++ after → ⊥) (λ after. bytes.now ≡ HEADER ++ after.now) }
{
    bytes.strip_prefix(&HEADER)
}

// The limits of these tables.
fn limits(alloc: Global, tables: &[TableType]) -> Result<Items<Limits>, AllocError>
    ensures limits { IfOk result (λ ls. ls ≡ map (λ t. t.limits) tables.now) }
    ensures wanted { OnErr result (0 < length tables.now) }
{
    let mut limits = Vec::new(alloc);
    for table in tables {
        limits.push(table.limits)?;
    }
    Ok(Items::new(limits))
}

// The limits of the tables. Source: section 5.5.7.
fn decode_tables(
    alloc: Global,
    profile: Profile,
    sections: &[Section],
) -> Result<Items<Limits>, DecodeFault>
    ensures read { Decodes (λ ls. SpellsVec TakesTableType ls (section 4 (map section_of sections.now))) (λ ls. ls) result }
    ensures wanted { IsErrOf result DecodeFault.NoMemory → 0 < length sections.now }
{
    let tables: Items<TableType> = decode_section(alloc, profile, sections, 4)?;
    Ok(limits(alloc, tables.as_slice())?)
}

// The functions, from their types and their bodies. Source: sections 5.5.6 and 5.5.13.
fn decode_functions(
    alloc: Global,
    profile: Profile,
    sections: &[Section],
) -> Result<Items<Function>, DecodeFault>
    ensures read { Decodes (SpellsFunctions profile (map section_of sections.now)) (map function_tree) result }
    ensures wanted { IsErrOf result DecodeFault.NoMemory → 0 < length sections.now }
{
    let type_indices: Items<u32> = decode_section(alloc, profile, sections, 3)?;
    let bodies: Items<SizedBody> = decode_section(alloc, profile, sections, 10)?;
    if type_indices.len() != bodies.len() {
        return Err(DecodeFault::Malformed);
    }
    let functions = join(alloc, type_indices.as_slice(), bodies.into_vec())?;
    Ok(Items::new(functions))
}

// What a module defines. Source: section 2.5.
#[derive(Drop)]
struct Definitions {
    types: Items<FuncType>,
    functions: Items<Function>,
    tables: Items<Limits>,
    memories: Items<Limits>,
    globals: Items<GlobalItem>,
}

// The definitions in these sections.
fn decode_definitions(
    alloc: Global,
    profile: Profile,
    sections: &[Section],
) -> Result<Definitions, DecodeFault>
    ensures read { Decodes (SpellsDefinitions profile (map section_of sections.now)) definitions_tree result }
    ensures wanted { IsErrOf result DecodeFault.NoMemory → 0 < length sections.now }
{
    let types = decode_section(alloc, profile, sections, 1)?;
    let functions = decode_functions(alloc, profile, sections)?;
    let tables = decode_tables(alloc, profile, sections)?;
    let memories = decode_section(alloc, profile, sections, 5)?;
    let globals = decode_section(alloc, profile, sections, 6)?;
    Ok(Definitions {
        types,
        functions,
        tables,
        memories,
        globals,
    })
}

// What initializes an instance of a module. Source: section 2.5.
#[derive(Drop)]
struct Initialization {
    start: Option<u32>,
    element_segments: Items<ElementSegment>,
    data_segments: Items<DataSegment>,
}

// The start function and the segments in these sections.
fn decode_initialization(
    alloc: Global,
    profile: Profile,
    sections: &[Section],
) -> Result<Initialization, DecodeFault>
    ensures read { Decodes (SpellsInitialization profile (map section_of sections.now)) initialization_tree result }
    ensures wanted { IsErrOf result DecodeFault.NoMemory → 0 < length sections.now }
{
    let start = decode_start(alloc, profile, sections)?;
    let element_segments = decode_section(alloc, profile, sections, 9)?;
    let data_segments: Items<DataSegment> = decode_section(alloc, profile, sections, 11)?;
    if is_counted(sections, data_segments.len()) {
        Ok(Initialization {
            start,
            element_segments,
            data_segments,
        })
    } else {
        Err(DecodeFault::Malformed)
    }
}

// The module whose sections these are.
fn decode_fields(
    alloc: Global,
    profile: Profile,
    sections: &[Section],
) -> Result<Module, DecodeFault>
    ensures read { Decodes (SpellsFields profile (map section_of sections.now)) module_tree result }
    ensures wanted { IsErrOf result DecodeFault.NoMemory → 0 < length sections.now }
{
    let imports = decode_section(alloc, profile, sections, 2)?;
    let exports = decode_section(alloc, profile, sections, 7)?;
    let initialization = decode_initialization(alloc, profile, sections)?;
    let definitions = decode_definitions(alloc, profile, sections)?;
    Ok(Module {
        types: definitions.types,
        imports,
        functions: definitions.functions,
        tables: definitions.tables,
        memories: definitions.memories,
        globals: definitions.globals,
        exports,
        start: initialization.start,
        element_segments: initialization.element_segments,
        data_segments: initialization.data_segments,
    })
}
