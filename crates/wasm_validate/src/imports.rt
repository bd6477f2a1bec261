//! Imports: which function of the host each names, and which are run.

ghost use Rattle.std.specs.Prelude.{◌≡◌, ◌&&◌, ◌↔◌, IsTrue};
ghost use Rattle.wasm_types.specs.SameTypes.{same_type};
ghost use Rattle.wasm_types.specs.Tree.{module_tree};
ghost use Rattle.wasm_spec.specs.Functions as functions;
ghost use Rattle.wasm_spec.specs.Validity.{AreRunImports, IsHostImport};

use wasm_types::{FuncType, HostFunction, Import, ImportDesc, Module, ValType, same_types};
use wasm_values::Profile;

// The function of the host that an item of `host` names.
fn host_item(name: &[u8]) -> Option<HostFunction>
    ensures { result ≡ functions.host_item name.now }
{
    if name == b"len".as_slice() {
        Some(HostFunction::Len)
    } else if name == b"read".as_slice() {
        Some(HostFunction::Read)
    } else if name == b"write".as_slice() {
        Some(HostFunction::Write)
    } else {
        None
    }
}

/// The function of the host that an import names, if it names one.
pub fn host_function(import: &Import) -> Option<HostFunction>
    ensures { result ≡ functions.host_function import.now }
{
    if import.module_name.as_slice() == b"host".as_slice() {
        host_item(import.item_name.as_slice())
    } else {
        None
    }
}

// Whether a type is that of a function of the host.
fn is_host_type(t: &FuncType, function: HostFunction) -> bool
    ensures { result ≡ same_type t.now (functions.host_type function) }
{
    let i32 = ValType::I32;
    let same = match function {
        HostFunction::Len => same_types(t.params.as_slice(), &[]),
        HostFunction::Read => same_types(t.params.as_slice(), &[i32, i32, i32]),
        HostFunction::Write => same_types(t.params.as_slice(), &[i32, i32]),
    };
    same && same_types(t.results.as_slice(), &[i32])
}

// Whether an import is one of a function of the host, and of its type where its type is there.
fn is_host_import(m: &Module, import: &Import) -> bool
    ensures { IsTrue result ↔ IsHostImport (module_tree m.now) import.now }
{
    match (host_function(import), import.desc) {
        (Some(function), ImportDesc::Func(t)) => match m.types.as_slice().get(t as usize) {
            Some(t) => is_host_type(t, function),
            None => true,
        },
        _ => false,
    }
}

/// Whether each import is one that the profile runs.
pub(crate) fn are_run_imports(profile: Profile, m: &Module) -> bool
    ensures { IsTrue result ↔ AreRunImports profile (module_tree m.now) }
{
    match profile {
        Profile::One | Profile::Two => m.imports.is_empty(),
        Profile::Three => m.imports.as_slice().iter().all(|i| is_host_import(m, i)),
    }
}
