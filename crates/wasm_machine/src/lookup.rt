//! What a module has at a place.
ghost use Rattle.wasm_types.specs.SameTypes.{same_type};
ghost use Rattle.std.specs.Prelude.{◌≡◌, ◌<◌, Some, length, option_and_then, option_copied, slice_get, unwrap_or};
ghost use Rattle.wasm_types.specs.declared.types.FuncType.{FuncType};
ghost use Rattle.wasm_spec.specs.Execution as execution;
ghost use Rattle.wasm_spec.specs.Functions.{function_type, host_function as named_function};
ghost use Rattle.wasm_spec.specs.Typing.{type_or_empty, result_types};
ghost use Rattle.wasm_types.specs.Tree.{module_tree};
ghost use Rattle.wasm_machine.specs.Simulation.{start_of as start};
ghost use Rattle.wasm_types.specs.Sequences.{code_at, named_in, ops_of};
ghost use Rattle.wasm_machine.specs.Remaining.{body_type, function_of, results};

use machine_steps::Position;
use wasm_checker::function_type;
use wasm_types::{
    FuncType, Function, HostFunction, LocalRun, Module, Op, ValType, named, same_function_types,
};
use wasm_validate::host_function;

// One of the module's own functions, by its number among these.
fn function_at(m: &Module, x: usize) -> &Function
    requires { x < length m.now.functions }
    ensures { result.now ≡ function_of m.now x }
{
    &m.functions.as_slice()[x]
}

// The type that a function names.
fn type_at(m: &Module, x: usize) -> Option<&FuncType>
    requires { x < length m.now.functions }
    ensures { option_copied result ≡ body_type (module_tree m.now) x }
{
    m.types
        .as_slice()
        .get(function_at(m, x).type_index as usize)
}

// How many results a function gives.
pub(crate) fn result_count(m: &Module, x: usize) -> usize
    requires { x < length m.now.functions }
    ensures { result ≡ length (results m.now x) }
{
    match type_at(m, x) {
        Some(t) => t.results.len(),
        None => 0,
    }
}

// How many values a block's type has.
pub(crate) fn value_count(t: Option<ValType>) -> usize
    ensures { result ≡ length (result_types t) }
{
    match t {
        None => 0,
        Some(_) => 1,
    }
}

// The instructions of the sequence that a position is in: none where there is no such sequence.
pub(crate) fn sequence_of(m: &Module, at: Position) -> &[Op]
    requires { at.function < length m.now.functions }
    ensures { result.now ≡ ops_of (function_of m.now at.function).body at.sequence }
{
    match function_at(m, at.function)
        .body
        .sequences
        .as_slice()
        .get(at.sequence)
    {
        Some(ops) => ops.as_slice(),
        None => &[],
    }
}

// The number of the sequence that one sequence names by this number.
pub(crate) fn named_by(m: &Module, at: Position, inner: usize) -> usize
    requires { at.function < length m.now.functions }
    ensures { code_at (function_of m.now at.function).body result 0 ≡ named_in (function_of m.now at.function).body at.sequence inner }
{
    named(&function_at(m, at.function).body, at.sequence, inner)
}

// How many parameters a function takes.
pub(crate) fn param_count(m: &Module, x: usize) -> usize
    requires { x < length m.now.functions }
    ensures { result ≡ length (type_or_empty (body_type (module_tree m.now) x)).params }
{
    match type_at(m, x) {
        Some(t) => t.params.len(),
        None => 0,
    }
}

// A function's declared locals.
pub(crate) fn local_runs(m: &Module, x: usize) -> &[LocalRun]
    requires { x < length m.now.functions }
    ensures { result.now ≡ (function_of m.now x).locals }
{
    function_at(m, x).locals.as_slice()
}

// The number of the sequence with which a function's body begins: its last one.
pub(crate) fn start_of(m: &Module, x: usize) -> usize
    requires { x < length m.now.functions }
    ensures { result ≡ start m.now x }
{
    function_at(m, x).body.sequences.len().saturating_sub(1)
}

// The label that a table names at a place: the last one past its end.
pub(crate) fn label_at(labels: &[u32], i: u32, last: u32) -> u32
    ensures { result ≡ unwrap_or (slice_get labels.now i) last }
{
    labels.get(i as usize).copied().unwrap_or(last)
}

// Whether a function has the type that is named.
pub(crate) fn has_type(m: &Module, function: u32, type_index: usize) -> bool
    ensures { (t u : FuncType) → slice_get m.now.types type_index ≡ Some t → function_type (module_tree m.now) function ≡ Some u → result ≡ same_type t u }
{
    match (
        m.types.as_slice().get(type_index),
        function_type(m, function),
    ) {
        (Some(t), Some(u)) => same_function_types(t, u),
        _ => false,
    }
}

// The function of the host that an import is.
pub(crate) fn host_of(m: &Module, x: usize) -> Option<HostFunction>
    ensures { result ≡ option_and_then named_function (slice_get m.now.imports x) }
{
    host_function(m.imports.as_slice().get(x)?)
}

// The pages that a module's memory may have, where a run's may have so many.
pub(crate) fn most_pages(m: &Module, pages: u32) -> u32
    ensures { result ≡ execution.most_pages m.now.memories pages }
{
    match m.memories.as_slice().get(0) {
        None => 0,
        Some(limits) => pages.min(limits.max.unwrap_or(pages)),
    }
}
