//! Types of values, functions, memories, tables and globals.

ghost use Rattle.std.specs.Prelude.{◌≡◌};
ghost use Rattle.wasm_types.specs.SameTypes.{all_same, same_type};

use wasm_values::Items;

/// A value type. Source: Core Specification 1.0, section 2.3.1.
#[derive(Clone, Copy, Debug, PartialEq, Eq)]
pub enum ValType {
    I32,
    I64,
    F32,
    F64,
}

/// The type of a function. The binary format allows several results; a valid module has at most one.
/// Source: section 2.3.3.
pub struct FuncType {
    pub params: Items<ValType>,
    pub results: Items<ValType>,
}

impl Drop for FuncType {
    fn drop(self) {
        let FuncType {
            params: _,
            results: _,
        } = self;
    }
}

/// The size range of a memory, in pages of 65,536 bytes, or of a table, in elements. Source: section 2.3.4.
#[derive(Clone, Copy, Debug, PartialEq, Eq)]
pub struct Limits {
    pub min: u32,
    pub max: Option<u32>,
}

/// The type of a global. Source: section 2.3.7.
#[derive(Clone, Copy, Debug, PartialEq, Eq)]
pub struct GlobalType {
    pub value: ValType,
    pub mutable: bool,
}

/// Whether two lists of value types are the same.
pub fn same_types(a: &[ValType], b: &[ValType]) -> bool
    ensures { result ≡ all_same a.now b.now }
{
    a == b
}

/// Whether two function types are the same: parameters and results, in order.
pub fn same_function_types(a: &FuncType, b: &FuncType) -> bool
    ensures { result ≡ same_type a.now b.now }
{
    same_types(a.params.as_slice(), b.params.as_slice())
        && same_types(a.results.as_slice(), b.results.as_slice())
}
