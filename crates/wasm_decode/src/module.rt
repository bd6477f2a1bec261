//! The items of a module's sections.

ghost use Rattle.std.specs.Prelude.{ℕ, List};
ghost use Rattle.wasm_types.specs.declared.module.Import.{Import as ImportTree};
ghost use Rattle.wasm_types.specs.declared.module.ImportDesc.{ImportDesc as ImportDescTree};
ghost use Rattle.wasm_types.specs.declared.module.Export.{Export as ExportTree};
ghost use Rattle.wasm_types.specs.declared.module.ExportDesc.{ExportDesc as ExportDescTree};
ghost use Rattle.wasm_types.specs.Tree.{GlobalTree, ElementTree, DataTree, global_tree, element_tree, data_tree};
ghost use Rattle.wasm_spec.specs.Numbers.{TakesBytes, TakesName};
ghost use Rattle.wasm_spec.specs.Grammar.{TakesImportDesc, TakesImport, TakesExportDesc, TakesExport, TakesGlobal, TakesElement, TakesData};
ghost use Rattle.wasm_spec.proofs.UnambiguousNumbers.{bytes-unique, name-unique};
ghost use Rattle.wasm_spec.proofs.UnambiguousModules.{import_desc-unique, import-unique, export_desc-unique, export-unique, global-unique, element-unique, data-unique};
ghost use Rattle.instr_decode.specs.Wants.{BeginsWith};

use crate::item::{Item, read_bytes};
use crate::types::TableType;
use instr_decode::DecodeFault;
use leb_read::Cursor;
use std::alloc::Global;
use wasm_types::{
    DataSegment, ElementSegment, Export, ExportDesc, Expr, Global as GlobalItem, GlobalType,
    Import, ImportDesc, Limits,
};
use wasm_values::{Items, Profile};

// A name, as its bytes.
#[derive(Drop)]
pub(crate) struct Name {
    pub(crate) bytes: Items<u8>,
}

// Source: Core Specification 1.0, section 5.2.4.
impl Item for Name {
    ghost Tree = { List ℕ };

    ghost tree = { λ n. n.bytes };

    ghost Takes = { λ _. TakesName };

    ghost Wants = { λ _. BeginsWith TakesName };

    ghost unique = { λ _. name-unique };

    fn decode(alloc: Global, _: Profile, cursor: &mut Cursor) -> Result<Self, DecodeFault> {
        let name = cursor.name()?;
        Ok(Name {
            bytes: Items::new(Vec::from_slice(alloc, name)?),
        })
    }
}

// A vector of bytes.
#[derive(Drop)]
pub(crate) struct Bytes {
    pub(crate) bytes: Items<u8>,
}

impl Item for Bytes {
    ghost Tree = { List ℕ };

    ghost tree = { λ b. b.bytes };

    ghost Takes = { λ _. TakesBytes };

    ghost Wants = { λ _. BeginsWith TakesBytes };

    ghost unique = { λ _. bytes-unique };

    fn decode(alloc: Global, _: Profile, cursor: &mut Cursor) -> Result<Self, DecodeFault> {
        let bytes = read_bytes(cursor)?;
        Ok(Bytes {
            bytes: Items::new(Vec::from_slice(alloc, bytes)?),
        })
    }
}

// Source: section 5.5.5.
impl Item for ImportDesc {
    ghost Tree = { ImportDescTree };

    ghost tree = { λ d. d };

    ghost Takes = { λ _. TakesImportDesc };

    ghost Wants = { λ _ _. ⊥ };

    ghost unique = { λ _. import_desc-unique };

    fn decode(alloc: Global, profile: Profile, cursor: &mut Cursor) -> Result<Self, DecodeFault> {
        let kind = cursor.u8()?;
        match kind {
            0x00 => {
                let index = cursor.u32()?;
                Ok(ImportDesc::Func(index))
            }
            0x01 => {
                let table = TableType::decode(alloc, profile, cursor)?;
                Ok(ImportDesc::Table(table.limits))
            }
            0x02 => {
                let limits = Limits::decode(alloc, profile, cursor)?;
                Ok(ImportDesc::Memory(limits))
            }
            0x03 => {
                let global_type = GlobalType::decode(alloc, profile, cursor)?;
                Ok(ImportDesc::Global(global_type))
            }
            _ => Err(DecodeFault::Malformed),
        }
    }
}

// Source: section 5.5.5.
impl Item for Import {
    ghost Tree = { ImportTree };

    ghost tree = { λ i. i };

    ghost Takes = { λ _. TakesImport };

    ghost Wants = { ⟦<(Name, (Name, ImportDesc)) as Item>⟧.Wants };

    ghost unique = { λ _. import-unique };

    fn decode(alloc: Global, profile: Profile, cursor: &mut Cursor) -> Result<Self, DecodeFault> {
        let (module_name, (item_name, desc)) = <(Name, (Name, ImportDesc))>::decode(
            alloc, profile, cursor,
        )?;
        Ok(Import {
            module_name: module_name.bytes,
            item_name: item_name.bytes,
            desc,
        })
    }
}

// Source: section 5.5.10.
impl Item for ExportDesc {
    ghost Tree = { ExportDescTree };

    ghost tree = { λ d. d };

    ghost Takes = { λ _. TakesExportDesc };

    ghost Wants = { λ _ _. ⊥ };

    ghost unique = { λ _. export_desc-unique };

    fn decode(alloc: Global, profile: Profile, cursor: &mut Cursor) -> Result<Self, DecodeFault> {
        let (kind, index) = <(u8, u32)>::decode(alloc, profile, cursor)?;
        match kind {
            0x00 => Ok(ExportDesc::Func(index)),
            0x01 => Ok(ExportDesc::Table(index)),
            0x02 => Ok(ExportDesc::Memory(index)),
            0x03 => Ok(ExportDesc::Global(index)),
            _ => Err(DecodeFault::Malformed),
        }
    }
}

// Source: section 5.5.10.
impl Item for Export {
    ghost Tree = { ExportTree };

    ghost tree = { λ e. e };

    ghost Takes = { λ _. TakesExport };

    ghost Wants = { ⟦<(Name, ExportDesc) as Item>⟧.Wants };

    ghost unique = { λ _. export-unique };

    fn decode(alloc: Global, profile: Profile, cursor: &mut Cursor) -> Result<Self, DecodeFault> {
        let (name, desc) = <(Name, ExportDesc)>::decode(alloc, profile, cursor)?;
        Ok(Export {
            name: name.bytes,
            desc,
        })
    }
}

// Source: section 5.5.9.
impl Item for GlobalItem {
    ghost Tree = { GlobalTree };

    ghost tree = { global_tree };

    ghost Takes = { TakesGlobal };

    ghost Wants = { ⟦<(GlobalType, Expr) as Item>⟧.Wants };

    ghost unique = { global-unique };

    fn decode(alloc: Global, profile: Profile, cursor: &mut Cursor) -> Result<Self, DecodeFault> {
        let (global_type, init) = <(GlobalType, Expr)>::decode(alloc, profile, cursor)?;
        Ok(GlobalItem { global_type, init })
    }
}

// Source: section 5.5.12.
impl Item for ElementSegment {
    ghost Tree = { ElementTree };

    ghost tree = { element_tree };

    ghost Takes = { TakesElement };

    ghost Wants = { ⟦<(u32, (Expr, Items<u32>)) as Item>⟧.Wants };

    ghost unique = { element-unique };

    fn decode(alloc: Global, profile: Profile, cursor: &mut Cursor) -> Result<Self, DecodeFault> {
        let (table, (offset, functions)) = <(u32, (Expr, Items<u32>))>::decode(
            alloc, profile, cursor,
        )?;
        Ok(ElementSegment {
            table,
            offset,
            functions,
        })
    }
}

// Source: section 5.5.14.
impl Item for DataSegment {
    ghost Tree = { DataTree };

    ghost tree = { data_tree };

    ghost Takes = { TakesData };

    ghost Wants = { ⟦<(u32, (Expr, Bytes)) as Item>⟧.Wants };

    ghost unique = { data-unique };

    fn decode(alloc: Global, profile: Profile, cursor: &mut Cursor) -> Result<Self, DecodeFault> {
        let (memory, (offset, bytes)) = <(u32, (Expr, Bytes))>::decode(alloc, profile, cursor)?;
        Ok(DataSegment {
            memory,
            offset,
            bytes: bytes.bytes,
        })
    }
}
