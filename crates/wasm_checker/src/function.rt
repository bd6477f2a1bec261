//! A function by itself.

ghost use Rattle.std.specs.Prelude.{◌≡◌, ℕ, List, [], IfOk, OnOk, IsErrOf};
ghost use Rattle.wasm_types.specs.Tree.{module_tree, function_tree};
ghost use Rattle.wasm_spec.specs.Need.{need};
ghost use Rattle.wasm_spec.specs.Typing.{IsTypedFunction};
ghost use Rattle.wasm_checker.specs.Subject.{HaveOneResult};

use crate::fault::CheckFault;
use crate::locals::Locals;
use crate::lookup::params_of;
use crate::walk::walk;
use std::alloc::Global;
use wasm_types::{Function, Module};

/// What a function's frame needs: how many operands, locals and labels it holds at most.
///
/// Source: Core Specification 1.0, section 3.4.1.
///
/// # Errors
///
/// `Invalid` exactly where the function's type is not there or its body is not of that type. `NoMemory` in place of any
/// answer.
pub fn check_function(alloc: Global, m: &Module, f: &Function) -> Result<u64, CheckFault>
    requires { HaveOneResult m.now }
    ensures typed { OnOk result (IsTypedFunction (module_tree m.now) (function_tree f.now)) }
    ensures need { IfOk result (λ n. n ≡ need (module_tree m.now) (function_tree f.now)) }
    ensures invalid { IsErrOf result CheckFault.Invalid → ¬ (IsTypedFunction (module_tree m.now) (function_tree f.now)) }
{
    if f.type_index as usize >= m.types.len() {
        return Err(CheckFault::Invalid);
    }
    let locals = Locals::new(alloc, params_of(m, f), f.locals.as_slice())?;
    let (peak_operands, peak_labels) = walk(alloc, m, f, &locals)?;
    Ok(locals.len() + peak_operands as u64 + peak_labels as u64)
}
