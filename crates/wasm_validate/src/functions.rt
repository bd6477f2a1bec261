//! The functions of a module, each by itself.

ghost use Rattle.std.specs.Prelude.{◌≡◌, ◌≤◌, ℕ, List, All, IfOk, OnOk, IsErrOf, map, length};
ghost use Rattle.wasm_types.specs.Tree.{module_tree};
ghost use Rattle.wasm_spec.specs.Need.{need};
ghost use Rattle.wasm_spec.specs.Typing.{IsTypedFunction};

use std::alloc::Global;
use wasm_checker::{CheckFault, check_function};
use wasm_types::Module;

/// Each function's frame need.
///
/// # Errors
///
/// `Invalid` exactly where a function is not typed. `NoMemory` in place of any answer.
pub(crate) fn frame_needs(alloc: Global, m: &Module) -> Result<Vec<u64>, CheckFault>
    requires { All (λ t. length t.results ≤ 1) m.now.types }
    ensures typed { OnOk result (All (IsTypedFunction (module_tree m.now)) (module_tree m.now).functions) }
    ensures needs { IfOk result (λ v. v.items ≡ map (need (module_tree m.now)) (module_tree m.now).functions) }
    ensures invalid { IsErrOf result CheckFault.Invalid → ¬ (All (IsTypedFunction (module_tree m.now)) (module_tree m.now).functions) }
{
    let mut needs = Vec::new(alloc);
    for f in m.functions.as_slice() {
        let need = check_function(alloc, m, f)?;
        needs.push(need)?;
    }
    Ok(needs)
}
