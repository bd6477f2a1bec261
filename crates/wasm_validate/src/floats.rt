//! Where a module uses floats.

ghost use Rattle.std.specs.Prelude.{◌≡◌, List, Bool, false, ◌||◌, IfOk, get_or};
ghost use Rattle.wasm_types.specs.Tree.{locals_of, expr_tree, function_tree, module_tree};
ghost use Rattle.wasm_spec.specs.Typing.{result_types};
ghost use Rattle.wasm_spec.specs.Validity as validity;
ghost use Rattle.wasm_spec.specs.Validity.{code_uses_floats};
ghost use Rattle.wasm_validate.specs.Floats as floats;
ghost use Rattle.std.specs.List.{list_any};

use std::alloc::{AllocError, Global};
use wasm_types::{
    DataSegment, ElementSegment, Expr, FuncType, Function, Instr, LocalRun, Module, Op, ValType,
};

fn is_float(t: ValType) -> bool
    ensures { result ≡ validity.is_float t }
{
    matches!(t, ValType::F32 | ValType::F64)
}

fn has_float(types: &[ValType]) -> bool
    ensures { result ≡ validity.has_float types.now }
{
    types.iter().any(|t| is_float(*t))
}

fn type_has_float(t: &FuncType) -> bool
    ensures { result ≡ (validity.has_float t.now.params || validity.has_float t.now.results) }
{
    has_float(t.params.as_slice()) || has_float(t.results.as_slice())
}

fn types_have_float(types: &[FuncType]) -> bool
    ensures { result ≡ list_any (λ t. validity.has_float t.params || validity.has_float t.results) types.now }
{
    types.iter().any(|t| type_has_float(t))
}

// A run of no locals declares no float.
fn run_has_float(run: &LocalRun) -> bool
    ensures { result ≡ validity.has_float (locals_of run.now) }
{
    run.count != 0 && is_float(run.value)
}

fn runs_have_float(runs: &[LocalRun]) -> bool
    ensures { result ≡ list_any (λ run. validity.has_float (locals_of run)) runs.now }
{
    runs.iter().any(|run| run_has_float(run))
}

fn block_has_float(t: Option<ValType>) -> bool
    ensures { result ≡ validity.has_float (result_types t) }
{
    match t {
        Some(t) => is_float(t),
        None => false,
    }
}

// A sequence that isn't there is empty.
fn at(earlier: &[bool], sequence: usize) -> bool
    ensures { result ≡ get_or earlier.now sequence false }
{
    match earlier.get(sequence) {
        Some(uses) => *uses,
        None => false,
    }
}

// Whether an instruction uses floats, where `earlier` has it of each sequence that it may name.
fn op_uses_floats(op: &Op, earlier: &[bool]) -> bool
    ensures { result ≡ floats.op_uses_floats earlier.now op.now }
{
    match op {
        Op::Plain(i) => matches!(i, Instr::Float),
        Op::Block(t, body) => block_has_float(*t) || at(earlier, *body),
        Op::Loop(t, body) => block_has_float(*t) || at(earlier, *body),
        Op::If(t, first, second) => {
            block_has_float(*t) || at(earlier, *first) || at(earlier, *second)
        }
        Op::Call(_) => false,
        Op::CallIndirect(_) => false,
    }
}

fn ops_use_floats(ops: &[Op], earlier: &[bool]) -> bool
    ensures { result ≡ list_any (floats.op_uses_floats earlier.now) ops.now }
{
    ops.iter().any(|op| op_uses_floats(op, earlier))
}

// Whether code uses floats. Each sequence is read once, with what is known of those before.
fn expr_uses_floats(alloc: Global, e: &Expr) -> Result<bool, AllocError>
    ensures { IfOk result (λ b. b ≡ code_uses_floats (expr_tree e.now)) }
{
    let mut earlier: Vec<bool> = Vec::new(alloc);
    for ops in e.sequences.as_slice() {
        let uses = ops_use_floats(ops.as_slice(), earlier.as_slice());
        earlier.push(uses)?;
    }
    let outermost = e.sequences.len().saturating_sub(1);
    Ok(at(earlier.as_slice(), outermost))
}

// What may use floats.
trait UsesFloats {
    ghost uses: { Self → Bool };

    fn uses_floats(&self, alloc: Global) -> Result<bool, AllocError>
        ensures { IfOk result (λ b. b ≡ uses self.now) };
}

impl UsesFloats for Function {
    ghost uses = { λ f. validity.has_float (function_tree f).locals || code_uses_floats (expr_tree f.body) };

    #[tactic(auto, using(crate::proofs::FloatCode::runs_float))]
    fn uses_floats(&self, alloc: Global) -> Result<bool, AllocError> {
        if runs_have_float(self.locals.as_slice()) {
            return Ok(true);
        }
        expr_uses_floats(alloc, &self.body)
    }
}

impl UsesFloats for wasm_types::Global {
    ghost uses = { λ g. validity.is_float g.global_type.value || code_uses_floats (expr_tree g.init) };

    fn uses_floats(&self, alloc: Global) -> Result<bool, AllocError> {
        if is_float(self.global_type.value) {
            return Ok(true);
        }
        expr_uses_floats(alloc, &self.init)
    }
}

impl UsesFloats for ElementSegment {
    ghost uses = { λ s. code_uses_floats (expr_tree s.offset) };

    fn uses_floats(&self, alloc: Global) -> Result<bool, AllocError> {
        expr_uses_floats(alloc, &self.offset)
    }
}

impl UsesFloats for DataSegment {
    ghost uses = { λ s. code_uses_floats (expr_tree s.offset) };

    fn uses_floats(&self, alloc: Global) -> Result<bool, AllocError> {
        expr_uses_floats(alloc, &self.offset)
    }
}

fn any_uses_floats<T: UsesFloats>(alloc: Global, items: &[T]) -> Result<bool, AllocError>
    ensures { IfOk result (λ b. b ≡ list_any T.uses items.now) }
{
    for item in items {
        if item.uses_floats(alloc)? {
            return Ok(true);
        }
    }
    Ok(false)
}

#[tactic(auto, using(crate::proofs::FloatCode::any_map))]
fn functions_use_floats(alloc: Global, m: &Module) -> Result<bool, AllocError>
    ensures { IfOk result (λ b. b ≡ list_any (λ f. validity.has_float f.locals || code_uses_floats f.body) (module_tree m.now).functions) }
{
    Ok(any_uses_floats(alloc, m.functions.as_slice())?)
}

#[tactic(auto, using(crate::proofs::FloatCode::any_map))]
fn globals_use_floats(alloc: Global, m: &Module) -> Result<bool, AllocError>
    ensures { IfOk result (λ b. b ≡ list_any (λ g. validity.is_float g.global_type.value || code_uses_floats g.init) (module_tree m.now).globals) }
{
    Ok(any_uses_floats(alloc, m.globals.as_slice())?)
}

#[tactic(auto, using(crate::proofs::FloatCode::any_map))]
fn elements_use_floats(alloc: Global, m: &Module) -> Result<bool, AllocError>
    ensures { IfOk result (λ b. b ≡ list_any (λ s. code_uses_floats s.offset) (module_tree m.now).element_segments) }
{
    Ok(any_uses_floats(alloc, m.element_segments.as_slice())?)
}

#[tactic(auto, using(crate::proofs::FloatCode::any_map))]
fn data_use_floats(alloc: Global, m: &Module) -> Result<bool, AllocError>
    ensures { IfOk result (λ b. b ≡ list_any (λ s. code_uses_floats s.offset) (module_tree m.now).data_segments) }
{
    Ok(any_uses_floats(alloc, m.data_segments.as_slice())?)
}

/// Whether a float type or an instruction on floats stands anywhere in a module.
///
/// # Errors
///
/// Memory was refused.
pub(crate) fn uses_floats(alloc: Global, m: &Module) -> Result<bool, AllocError>
    ensures { IfOk result (λ b. b ≡ validity.uses_floats (module_tree m.now)) }
{
    Ok(
        types_have_float(m.types.as_slice())
            || functions_use_floats(alloc, m)?
            || globals_use_floats(alloc, m)?
            || elements_use_floats(alloc, m)?
            || data_use_floats(alloc, m)?,
    )
}
