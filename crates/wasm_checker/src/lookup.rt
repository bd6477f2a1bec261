//! What the code of a function may name.

ghost use Rattle.std.specs.Prelude.{◌≡◌, ◌≤◌, ℕ, length, List, [], Option, slice_get, option_and_then, option_copied, option_map};
ghost use Rattle.wasm_types.specs.Tree.{module_tree, function_tree};
ghost use Rattle.wasm_spec.specs.Functions as functions;
ghost use Rattle.wasm_spec.specs.Typing as typing;
ghost use Rattle.wasm_spec.specs.Typing.{result_types};
ghost use Rattle.wasm_checker.specs.Subject as subject;

use wasm_types::{FuncType, Function, GlobalType, Import, ImportDesc, Module, ValType};

// The number of the type of an imported function, if it is one.
fn imported_type(desc: ImportDesc) -> Option<u32>
    ensures { result ≡ functions.imported_type desc }
{
    match desc {
        ImportDesc::Func(t) => Some(t),
        _ => None,
    }
}

// The number of the type of one of these imports.
fn import_type_index(imports: &[Import], x: usize) -> Option<u32>
    ensures { result ≡ option_and_then (λ i. functions.imported_type i.desc) (slice_get imports.now x) }
{
    match imports.get(x) {
        Some(i) => imported_type(i.desc),
        None => None,
    }
}

// The number of the type of one of these functions.
fn own_type_index(functions: &[Function], y: usize) -> Option<u32>
    ensures { result ≡ option_map (λ f. f.type_index) (slice_get functions.now y) }
{
    match functions.get(y) {
        Some(f) => Some(f.type_index),
        None => None,
    }
}

// The number of a function's type: the imports have the first numbers of functions.
fn type_index(m: &Module, x: usize) -> Option<u32>
    ensures { result ≡ option_and_then functions.type_index_of (functions.callee_at (module_tree m.now) x) }
{
    let imports = m.imports.as_slice();
    if x < imports.len() {
        import_type_index(imports, x)
    } else {
        own_type_index(m.functions.as_slice(), x - imports.len())
    }
}

/// A function's type: None where the module has no such function, or that names no type.
pub fn function_type(m: &Module, x: u32) -> Option<&FuncType>
    ensures { option_copied result ≡ functions.function_type (module_tree m.now) x }
{
    let t = type_index(m, x as usize)?;
    m.types.as_slice().get(t as usize)
}

/// A type of the module.
pub(crate) fn type_at(m: &Module, x: u32) -> Option<&FuncType>
    ensures { option_copied result ≡ slice_get m.now.types x }
{
    m.types.as_slice().get(x as usize)
}

/// The result of a function of this type, if it has one.
pub(crate) fn single_result(t: &FuncType) -> Option<ValType>
    requires { length t.now.results ≤ 1 }
    ensures { result_types result ≡ t.now.results }
{
    t.results.as_slice().first().copied()
}

/// A global's type.
pub(crate) fn global_type(m: &Module, x: u32) -> Option<GlobalType>
    ensures { result ≡ typing.global_type (module_tree m.now) x }
{
    let g = m.globals.as_slice().get(x as usize)?;
    Some(g.global_type)
}

/// The types of a function's parameters; none where it names no type.
pub(crate) fn params_of<'a>(m: &'a Module, f: &Function) -> &'a [ValType]
    ensures { result.now ≡ (typing.own_type (module_tree m.now) (function_tree f.now)).params }
{
    match m.types.as_slice().get(f.type_index as usize) {
        Some(t) => t.params.as_slice(),
        None => &[],
    }
}

/// The type of a function's result, if it has one.
pub(crate) fn result_of(m: &Module, f: &Function) -> Option<ValType>
    ensures { result ≡ subject.result_of m.now f.now }
{
    match m.types.as_slice().get(f.type_index as usize) {
        Some(t) => t.results.as_slice().first().copied(),
        None => None,
    }
}
