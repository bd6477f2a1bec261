//! Modules.

use crate::instr::Expr;
use crate::types::{FuncType, GlobalType, Limits, ValType};
use wasm_values::Items;

/// So many locals of one type. Source: Core Specification 1.0, section 5.5.13 (locals).
#[derive(Clone, Copy, Debug, PartialEq, Eq)]
pub struct LocalRun {
    pub count: u32,
    pub value: ValType,
}

/// A function: the index of its type, its declared locals, its body. Source: section 2.5.3.
pub struct Function {
    pub type_index: u32,
    pub locals: Items<LocalRun>,
    pub body: Expr,
}

impl Drop for Function {
    fn drop(self) {
        let Function {
            type_index: _,
            locals: _,
            body: _,
        } = self;
    }
}

/// A global and its initialiser. Source: section 2.5.6.
pub struct Global {
    pub global_type: GlobalType,
    pub init: Expr,
}

impl Drop for Global {
    fn drop(self) {
        let Global {
            global_type: _,
            init: _,
        } = self;
    }
}

/// What an import or an export is. Source: sections 2.5.10 and 2.5.11.
#[derive(Clone, Copy, Debug, PartialEq, Eq)]
pub enum ExportDesc {
    Func(u32),
    Table(u32),
    Memory(u32),
    Global(u32),
}

/// An export: its name, as UTF-8 bytes, and what it is. Source: section 2.5.10.
pub struct Export {
    pub name: Items<u8>,
    pub desc: ExportDesc,
}

impl Drop for Export {
    fn drop(self) {
        let Export { name: _, desc: _ } = self;
    }
}

/// What is imported. Source: section 2.5.11.
#[derive(Clone, Copy, Debug, PartialEq, Eq)]
pub enum ImportDesc {
    Func(u32),
    Table(Limits),
    Memory(Limits),
    Global(GlobalType),
}

/// An import: the two parts of its name, as UTF-8 bytes, and what it is. Source: section 2.5.11.
pub struct Import {
    pub module_name: Items<u8>,
    pub item_name: Items<u8>,
    pub desc: ImportDesc,
}

impl Drop for Import {
    fn drop(self) {
        let Import {
            module_name: _,
            item_name: _,
            desc: _,
        } = self;
    }
}

/// An element segment: function indices to write into a table from an offset on. Source: section 2.5.7.
pub struct ElementSegment {
    pub table: u32,
    pub offset: Expr,
    pub functions: Items<u32>,
}

impl Drop for ElementSegment {
    fn drop(self) {
        let ElementSegment {
            table: _,
            offset: _,
            functions: _,
        } = self;
    }
}

/// A data segment: bytes to write into a memory from an offset on. Source: section 2.5.8.
pub struct DataSegment {
    pub memory: u32,
    pub offset: Expr,
    pub bytes: Items<u8>,
}

impl Drop for DataSegment {
    fn drop(self) {
        let DataSegment {
            memory: _,
            offset: _,
            bytes: _,
        } = self;
    }
}

/// A module. Custom sections are not kept. Source: section 2.5.
#[derive(Drop)]
pub struct Module {
    pub types: Items<FuncType>,
    pub imports: Items<Import>,
    pub functions: Items<Function>,
    pub tables: Items<Limits>,
    pub memories: Items<Limits>,
    pub globals: Items<Global>,
    pub exports: Items<Export>,
    pub start: Option<u32>,
    pub element_segments: Items<ElementSegment>,
    pub data_segments: Items<DataSegment>,
}
