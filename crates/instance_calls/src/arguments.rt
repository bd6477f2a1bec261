//! Whether arguments fit a function.
ghost use Rattle.std.specs.Prelude.{◌≡◌, ◌↔◌, IsTrue, Some, map};
ghost use Rattle.wasm_types.specs.declared.types.FuncType.{FuncType};
ghost use Rattle.wasm_types.specs.Tree.{module_tree};
ghost use Rattle.wasm_spec.specs.Functions.{function_type};
ghost use Rattle.wasm_spec.specs.Typing.{type_of};

use wasm_checker::function_type;
use wasm_types::{Module, ValType};
use wasm_values::Val;

// The type of a value.
fn value_type(value: &Val) -> ValType
    ensures { result ≡ type_of value.now }
{
    match value {
        Val::I32(_) => ValType::I32,
        Val::I64(_) => ValType::I64,
    }
}

// Whether a value is of this type.
fn is_of_type(value: &Val, wanted: ValType) -> bool
    ensures { IsTrue result ↔ (type_of value.now ≡ wanted) }
{
    value_type(value) == wanted
}

// Whether the values have these types, one by one.
fn have_types(values: &[Val], types: &[ValType]) -> bool
    ensures { IsTrue result ↔ (map type_of values.now ≡ types.now) }
{
    if values.len() != types.len() {
        return false;
    }
    for (index, value) in values.iter().enumerate() {
        if !is_of_type(value, types[index]) {
            return false;
        }
    }
    true
}

// Whether the arguments have the types of the function's parameters.
pub(crate) fn fit(program: &Module, function: u32, args: &[Val]) -> bool
    requires { (t : FuncType) × (function_type (module_tree program.now) function ≡ Some t) }
    ensures { (t : FuncType) → function_type (module_tree program.now) function ≡ Some t
        → IsTrue result ↔ (map type_of args.now ≡ t.params) }
{
    let function_type = function_type(program, function).unwrap();
    have_types(args, function_type.params.as_slice())
}
